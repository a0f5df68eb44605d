// What writing a sheet answers: the octets defined for a sheet, the order of the tests, and which sheets are accepted, apart from the
// program that writes. Specifications only.
#![tactic(auto)]
