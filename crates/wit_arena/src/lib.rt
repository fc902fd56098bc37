//! What occurs in sources, and what a package is, with what follows from them about lists. It has no code.
#![tactic(auto)]
