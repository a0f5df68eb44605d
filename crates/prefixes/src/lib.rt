// RULES D3, its first half: of two sheets of one carrier that writing accepts, the octets of the first are a leading part of the second's
// exactly if the first sheet's records are the first records of the second. Specifications only.
#![tactic(auto)]
