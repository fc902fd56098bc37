//! What sources mean, and the rules that they may break, with what follows from them about lists. It has no code.
#![tactic(auto)]
