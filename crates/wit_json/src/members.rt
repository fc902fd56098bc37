//! Members of an object, and small values.
ghost use Rattle.std.specs.Prelude.{◌≡◌, ◌++◌, ◌∷◌, [], OnOk};
ghost use Rattle.json.specs.Json.{string};
ghost use Rattle.json.specs.Token.{begin_object, key};
ghost use Rattle.wit_json.specs.ValueTokens.{Adds, AddsMembers};
ghost use Rattle.wit_json.specs.Values.{at, number_json, optional_number, optional_text};
ghost use Rattle.wit_json.specs.MemberWords.{word};

use crate::member_words::Word;
use crate::output::Output;
use std::alloc::AllocError;
use wit_types::Id;
use wit_values::Text;

/// A key.
pub fn push_key(out: &mut Output, name: Word) -> Result<(), AllocError>
    ensures { OnOk result (out.new ≡ out.old ++ key (word name) ∷ []) }
{
    out.key(name.as_str())
}

/// The opening bracket of an object, and its first key.
pub fn open(out: &mut Output, name: Word) -> Result<(), AllocError>
    ensures { OnOk result (out.new ≡ out.old ++ begin_object ∷ key (word name) ∷ []) }
{
    out.begin_object()?;
    push_key(out, name)
}

/// A key and a string.
pub fn push_text(out: &mut Output, name: Word, text: &str) -> Result<(), AllocError>
    ensures { OnOk result (AddsMembers out.old out.new (at name (string text.now) ∷ [])) }
{
    push_key(out, name)?;
    out.string(text)
}

/// A number.
pub fn write_number(out: &mut Output, number: usize) -> Result<(), AllocError>
    ensures { OnOk result (Adds out.old out.new (number_json number)) }
{
    out.number(number as u64)
}

/// A key and a number.
pub fn push_number(out: &mut Output, name: Word, number: usize) -> Result<(), AllocError>
    ensures { OnOk result (AddsMembers out.old out.new (at name (number_json number) ∷ [])) }
{
    push_key(out, name)?;
    write_number(out, number)
}

/// A string, or null.
pub fn write_optional_text(out: &mut Output, text: &Option<Text>) -> Result<(), AllocError>
    ensures { OnOk result (Adds out.old out.new (optional_text text.now)) }
{
    match text {
        Some(text) => out.string(text.as_str()),
        None => out.null(),
    }
}

/// An id, or null.
pub fn write_optional_id<M>(out: &mut Output, id: Option<Id<M>>) -> Result<(), AllocError>
    ensures { OnOk result (Adds out.old out.new (optional_number id)) }
{
    match id {
        Some(id) => write_number(out, id.index()),
        None => out.null(),
    }
}
