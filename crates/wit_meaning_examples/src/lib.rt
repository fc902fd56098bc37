//! Examples of what a package means, each proved. It has no code.
#![tactic(auto)]
