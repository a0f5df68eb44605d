// RULES D2, its last sentence: with room for it, reading the octets defined for an accepted sheet gives the sheet back. Specifications only.
#![tactic(auto)]
