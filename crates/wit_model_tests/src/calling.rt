//! How functions are called across a component's boundary.
use crate::shared::{SPAN, function};
use std::alloc::Global;
use std::test::Fail;
use wit_model::laws::equality::{
    is_same_abi, is_same_abi_variant, is_same_mangling, is_same_mangling_and_abi,
};
use wit_model::{FunctionKind, LiftLowerAbi, Mangling, ManglingAndAbi};
use wit_values::{Row, Text};

fn are_variants_same(choice: ManglingAndAbi, abi: LiftLowerAbi) -> bool {
    is_same_abi_variant(choice.import_variant(), abi.import_variant())
        && is_same_abi_variant(choice.export_variant(), abi.export_variant())
}

fn are_choices_same(choice: ManglingAndAbi, abi: LiftLowerAbi) -> bool {
    is_same_mangling(choice.mangling(), Mangling::Legacy)
        && is_same_mangling_and_abi(choice.sync(), ManglingAndAbi::Legacy(LiftLowerAbi::Sync))
        && is_same_abi(abi, abi)
}

#[test]
fn calls_across_the_border(rt: HostRuntime) {
    let abi = LiftLowerAbi::AsyncStackful;
    let choice = ManglingAndAbi::Legacy(abi);
    assert!(rt; are_variants_same(choice, abi) && are_choices_same(choice, abi));
}

// Whether the name of a getter has its mark, and whether the name after it is `f`.
fn is_getter_of_f(alloc: Global, name: &str) -> Result<(bool, bool), Fail> {
    let name = Text::from_str(alloc, name)?;
    let getter = function(name, FunctionKind::Getter, Row::new(alloc), SPAN);
    if getter.has_mark() {
        return Ok((true, getter.item_name() == "f"));
    }
    Ok((false, false))
}

#[test]
fn marks_of_names(rt: HostRuntime) -> Result<(), Fail> {
    for (name, want) in [("[get]f", (true, true)), ("f", (false, false))] {
        assert!(rt; is_getter_of_f(rt.alloc(), name)? == want, "{name}");
    }
    Ok(())
}
