// RULES D2, declaratively: theorems that say, for each carrier, which blocks yield records and which records these are, which fault every other
// block has, and what a reading answers, in terms that a reader can hold beside the RFCs' figures and the rules; and how many octets a sheet
// of such records has at most. Specifications only.
#![tactic(auto)]
