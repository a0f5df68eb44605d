// RULES D3, its second half: the octets defined for an accepted sheet, in carriers 2 to 5, cut after any number of octets, and the part
// before the cut read. Specifications only.
#![tactic(auto)]
