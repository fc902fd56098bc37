//! Files that are alike, equal but for addresses, make one package: each value that a package is made
//! of is the same value of both. It has no code.
#![tactic(auto)]
