//! Trees that are alike, equal but for addresses, say the same: each definition that looks into a tree gives
//! what is alike, or one value. It has no code.
#![tactic(auto)]
