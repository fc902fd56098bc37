//! Uses of `tulfjak`, as a caller writes them, of the package that standard input says.
#![tactic(auto)]

mod header;
mod imports;
mod moved;
mod ordered;
mod waiting;

use anyhow::{Result, bail};
use std::alloc::Global;
use std::io;
use tulfjak::{PackageRef, ResolvedGroup};

/// What each use makes of a package, one after another.
fn uses(alloc: Global, package: &PackageRef<'_>) -> Result<String> {
    let mut text = header::header(alloc, package)?;
    for world in package.worlds() {
        imports::push_imports(alloc, &mut text, &world)?;
    }
    for interface in package.interfaces() {
        waiting::push_waiting(alloc, &mut text, &interface)?;
    }
    ordered::push_order(alloc, &mut text)?;
    Ok(text)
}

/// Prints the slices at which interfaces are named, in a map in which another source comes before theirs.
fn print_moved(rt: &impl Print, alloc: Global, group: ResolvedGroup) -> Result<()> {
    match moved::moved(alloc, &mut group.into_group()) {
        Ok(text) => Ok(print!(rt; "{text}")?),
        Err(refusal) => bail!("{refusal}"),
    }
}

/// Prints what each use makes of the package.
fn main(rt: HostRuntime) -> Result<()> {
    let alloc = rt.alloc();
    let input = io::read_to_string(alloc, rt.stdin())?;
    match ResolvedGroup::parse(alloc, "shop.wit", input.as_str()) {
        Ok(group) => {
            print!(rt; "{}", uses(alloc, &group.main())?)?;
            print_moved(&rt, alloc, group)
        }
        Err((_, refusal)) => bail!("{refusal}"),
    }
}
