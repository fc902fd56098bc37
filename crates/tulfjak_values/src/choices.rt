//! Spellings, calling conventions, kinds of functions and integers that say cases.

use crate::answers::{push_answer, push_shown};
use std::alloc::{AllocError, Global};
use tulfjak::package::{
    Arena, FunctionKind, LiftLowerAbi, Mangling, ManglingAndAbi, TypePlace, discriminant_type,
};

/// Adds the spelling of a word, or why it is none.
fn push_mangling(text: &mut String, word: &str) -> Result<(), AllocError> {
    match Mangling::from_str(word) {
        Ok(mangling) => push_answer(text, "Mangling::from_str", &mangling),
        Err(fault) => push_shown(text, "Mangling::from_str", &fault),
    }
}

/// Adds what calls on a convention return.
fn push_convention(text: &mut String, abi: LiftLowerAbi) -> Result<(), AllocError> {
    push_answer(
        text,
        "LiftLowerAbi",
        &(abi.import_variant(), abi.export_variant()),
    )?;
    let choice = ManglingAndAbi::Legacy(abi);
    let variants = (choice.import_variant(), choice.export_variant());
    push_answer(text, "ManglingAndAbi::import_variant", &variants)?;
    let answers = (choice.is_async(), choice.sync(), choice.mangling());
    push_answer(text, "ManglingAndAbi::sync", &answers)
}

/// Adds a setter of a resource that becomes one of another resource.
fn push_moved(alloc: Global, text: &mut String) -> Result<(), AllocError> {
    let mut types: Arena<u8, TypePlace> = Arena::new(alloc);
    let mut kind = FunctionKind::MethodSetter(types.add(0)?);
    if let Some(id) = kind.resource_mut() {
        *id = types.next_id();
    }
    push_answer(text, "FunctionKind::resource_mut", &(kind, kind.resource()))
}

/// Adds what calls on choices return.
pub fn push_choices(alloc: Global, text: &mut String) -> Result<(), AllocError> {
    push_mangling(text, "legacy")?;
    push_mangling(text, "x")?;
    push_convention(text, LiftLowerAbi::AsyncCallback)?;
    push_convention(text, LiftLowerAbi::AsyncStackful)?;
    push_moved(alloc, text)?;
    for cases in [0, 1, 256, 257, 65_536, 65_537, 4_294_967_296] {
        push_answer(
            text,
            "discriminant_type",
            &(cases, discriminant_type(cases)),
        )?;
    }
    Ok(())
}
