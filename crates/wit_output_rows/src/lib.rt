//! Small texts, and what is printed of each, proved by the definition of output. It has no code.
#![tactic(auto)]
