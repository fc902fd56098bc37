//! Tests of `wit_names`, `wit_values`, `wit_order`, `wit_types`, `wit_package_names`, `wit_functions`,
//! `wit_model` and `wit_intern`: each public call that no program makes, with ample memory.
#![tactic(auto)]

#[cfg(test)]
mod calling;
#[cfg(test)]
mod interning;
#[cfg(test)]
mod kinds;
#[cfg(test)]
mod names;
#[cfg(test)]
mod orders;
#[cfg(test)]
mod packages;
#[cfg(test)]
mod setters;
#[cfg(test)]
mod shared;
#[cfg(test)]
mod small;
#[cfg(test)]
mod toposort;
#[cfg(test)]
mod tracks;
#[cfg(test)]
mod values;
#[cfg(test)]
mod worlds;
