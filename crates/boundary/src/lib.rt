// The boundary pieces (RULES K1 to K12) as one table, and the proof that reading and writing treat each of them as its row says (RULES D12).
// Specifications only.
#![tactic(auto)]
