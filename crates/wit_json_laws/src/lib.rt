//! Laws of the JSON of resolved packages: those of `wit_json` without their premises, for packages that
//! legal files make and for groups that are read from text.
#![tactic(auto)]

pub mod laws;
