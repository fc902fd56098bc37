//! Small texts of a listing, each put after a text.
ghost use Rattle.std.specs.Prelude.{◌≡◌, ◌<◌, ◌∷◌, ◌++◌, OnOk, decimal, string_bytes};
ghost use Rattle.semver.specs.Identifiers.{marked};
ghost use Rattle.wit_values.specs.ReleaseText.{release_text};
ghost use Rattle.wit_listing.specs.ListingTexts.{Adds, deprecated_text, optional_text, stability_text, type_text};

use itoa::Buffer;
use std::alloc::AllocError;
use wit_types::{Stability, Type};
use wit_values::{Rare, Release};

/// A number of one digit.
#[tactic(auto, using(std::proofs::lemmas::Fmt::decimal_digit))]
fn push_digit(text: &mut String, number: usize) -> Result<(), AllocError>
    requires { number < 10 }
    ensures { OnOk result (Adds text.old text.new (decimal number)) }
{
    text.push((b'0' + number as u8) as char)
}

/// A number of one digit or two.
fn push_tens(text: &mut String, number: usize) -> Result<(), AllocError>
    requires { number < 100 }
    ensures { OnOk result (Adds text.old text.new (decimal number)) }
{
    if number < 10 {
        return push_digit(text, number);
    }
    push_digit(text, number / 10)?;
    push_digit(text, number % 10)
}

/// A number of at most three digits.
fn push_hundreds(text: &mut String, number: usize) -> Result<(), AllocError>
    requires { number < 1000 }
    ensures { OnOk result (Adds text.old text.new (decimal number)) }
{
    if number < 100 {
        return push_tens(text, number);
    }
    push_tens(text, number / 10)?;
    push_digit(text, number % 10)
}

/// A number in decimal digits.
fn push_number(text: &mut String, number: usize) -> Result<(), AllocError>
    ensures { OnOk result (Adds text.old text.new (decimal number)) }
{
    if number < 1000 {
        return push_hundreds(text, number);
    }
    let mut digits = Buffer::new();
    text.push_str(digits.format(number))
}

/// A mark, and a number in decimal digits after it.
pub fn push_marked(text: &mut String, mark: char, number: usize) -> Result<(), AllocError>
    requires { mark < 128 }
    ensures { OnOk result (Adds text.old text.new (mark ∷ decimal number)) }
{
    text.push(mark)?;
    push_number(text, number)
}

/// A text, and a number in decimal digits after it.
pub fn push_numbered(text: &mut String, prefix: &str, number: usize) -> Result<(), AllocError>
    ensures { OnOk result (Adds text.old text.new (prefix.now ++ decimal number)) }
{
    text.push_str(prefix)?;
    push_number(text, number)
}

/// The word of a primitive type, or `#` and the place of an entry.
pub fn push_type(text: &mut String, ty: Type) -> Result<(), AllocError>
    ensures { OnOk result (Adds text.old text.new (type_text ty)) }
{
    match ty {
        Type::Bool => text.push_str("bool"),
        Type::U8 => text.push_str("u8"),
        Type::U16 => text.push_str("u16"),
        Type::U32 => text.push_str("u32"),
        Type::U64 => text.push_str("u64"),
        Type::S8 => text.push_str("s8"),
        Type::S16 => text.push_str("s16"),
        Type::S32 => text.push_str("s32"),
        Type::S64 => text.push_str("s64"),
        Type::F32 => text.push_str("f32"),
        Type::F64 => text.push_str("f64"),
        Type::Char => text.push_str("char"),
        Type::String => text.push_str("string"),
        Type::ErrorContext => text.push_str("error-context"),
        Type::Id(id) => push_marked(text, '#', id.index()),
    }
}

/// A type, or `_` where there is none.
pub fn push_optional(text: &mut String, ty: Option<Type>) -> Result<(), AllocError>
    ensures { OnOk result (Adds text.old text.new (optional_text ty)) }
{
    match ty {
        Some(ty) => push_type(text, ty),
        None => text.push('_'),
    }
}

/// A part of a version after its mark; nothing where it is empty.
fn push_part(text: &mut String, mark: char, part: &str) -> Result<(), AllocError>
    requires { mark < 128 }
    ensures { OnOk result (Adds text.old text.new (marked mark part.now)) }
{
    if part.is_empty() {
        return Ok(());
    }
    text.push(mark)?;
    text.push_str(part)
}

/// A version.
pub fn push_release(text: &mut String, release: &Release) -> Result<(), AllocError>
    ensures { OnOk result (Adds text.old text.new (release_text release.now)) }
{
    push_number(text, release.major as usize)?;
    push_marked(text, '.', release.minor as usize)?;
    push_marked(text, '.', release.patch as usize)?;
    push_part(text, '-', release.pre.as_str())?;
    push_part(text, '+', release.build.as_str())
}

/// From which version on an item is deprecated.
fn push_deprecated(text: &mut String, deprecated: &Rare<Release>) -> Result<(), AllocError>
    ensures { OnOk result (Adds text.old text.new (deprecated_text deprecated.now)) }
{
    match deprecated.get() {
        Some(version) => {
            text.push_str(" deprecated ")?;
            push_release(text, version)
        }
        None => Ok(()),
    }
}

/// How stable an item is, where that is known.
pub fn push_stability(text: &mut String, stability: &Stability) -> Result<(), AllocError>
    ensures { OnOk result (Adds text.old text.new (stability_text stability.now)) }
{
    match stability {
        Stability::Unknown => Ok(()),
        Stability::Unstable {
            feature,
            deprecated,
        } => {
            text.push_str(" unstable ")?;
            text.push_str(feature.as_str())?;
            push_deprecated(text, deprecated)
        }
        Stability::Stable { since, deprecated } => {
            text.push_str(" since ")?;
            push_release(text, since)?;
            push_deprecated(text, deprecated)
        }
    }
}
