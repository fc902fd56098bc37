//! A package, and those that are nested in it.
ghost use Rattle.std.specs.Prelude.{◌≡◌, IfOk, IsUtf8, OnOk};
ghost use Rattle.wit_json.specs.Numbers.{HasShortNumbers};
ghost use Rattle.wit_json.specs.ValueTokens.{Adds, AddsEach, AddsMembers, ReadsAs, json_text};
ghost use Rattle.wit_json.specs.Values.{list};
ghost use Rattle.wit_json.specs.Group.{group_json, group_members, packages_of, source_json, source_members};

use crate::lists::{AsJson, push_each, write_list};
use crate::member_words::Word;
use crate::members::{push_key, push_number, push_text};
use crate::output::Output;
use std::alloc::{AllocError, Global};
use wit_lex::Source;
use wit_model::UnresolvedPackage;

fn push_source(out: &mut Output, source: &Source) -> Result<(), AllocError>
    ensures { OnOk result (AddsMembers out.old out.new (source_members source.now)) }
{
    push_text(out, Word::Path, source.path.as_str())?;
    push_number(out, Word::Start, source.offset as usize)?;
    push_number(
        out,
        Word::End,
        source.offset as usize + source.contents.len(),
    )
}

impl AsJson for Source {
    ghost json = { source_json };

    #[tactic(auto, using(crate::proofs::Closing::fields_closed))]
    fn write(&self, out: &mut Output) -> Result<(), AllocError> {
        out.begin_object()?;
        push_source(out, self)?;
        out.end_object()
    }
}

fn push_packages(
    out: &mut Output,
    main: &UnresolvedPackage,
    nested: &[UnresolvedPackage],
) -> Result<(), AllocError>
    ensures { OnOk result (AddsEach out.old out.new (packages_of main.now nested.now)) }
{
    main.write(out)?;
    push_each(out, nested)
}

fn write_packages(
    out: &mut Output,
    main: &UnresolvedPackage,
    nested: &[UnresolvedPackage],
) -> Result<(), AllocError>
    ensures { OnOk result (Adds out.old out.new (list (packages_of main.now nested.now))) }
{
    out.begin_array()?;
    push_packages(out, main, nested)?;
    out.end_array()
}

fn push_group(
    out: &mut Output,
    sources: &[Source],
    main: &UnresolvedPackage,
    nested: &[UnresolvedPackage],
) -> Result<(), AllocError>
    ensures { OnOk result (AddsMembers out.old out.new (group_members sources.now main.now nested.now)) }
{
    push_key(out, Word::Sources)?;
    write_list(out, sources)?;
    push_key(out, Word::Packages)?;
    write_packages(out, main, nested)
}

#[tactic(auto, using(crate::proofs::Closing::fields_closed))]
fn write_group(
    out: &mut Output,
    sources: &[Source],
    main: &UnresolvedPackage,
    nested: &[UnresolvedPackage],
) -> Result<(), AllocError>
    ensures { OnOk result (Adds out.old out.new (group_json sources.now main.now nested.now)) }
{
    out.begin_object()?;
    push_group(out, sources, main, nested)?;
    out.end_object()
}

/// The JSON of a package and of those nested in it, with the sources that their spans refer to: one line
/// without spaces, in UTF-8, which any reader of JSON reads back as that value. No number has more than 20
/// digits.
///
/// # Errors
///
/// `AllocError` if an allocation failed.
pub fn group_json(
    alloc: Global,
    sources: &[Source],
    main: &UnresolvedPackage,
    nested: &[UnresolvedPackage],
) -> Result<Vec<u8>, AllocError>
    ensures text { IfOk result (λ t. t.items ≡ json_text (group_json sources.now main.now nested.now)) }
    ensures utf8 { IfOk result (λ t. IsUtf8 t.items) }
    ensures reads_back { IfOk result (λ t. ReadsAs t.items (group_json sources.now main.now nested.now)) }
    ensures numbers { IfOk result (λ _. HasShortNumbers (group_json sources.now main.now nested.now)) }
{
    let mut out = Output::new(alloc);
    write_group(&mut out, sources, main, nested)?;
    Ok(out.into_bytes())
}
