//! Interfaces.
ghost use Rattle.std.specs.Prelude.{◌≡◌, OnOk};
ghost use Rattle.wit_json.specs.ValueTokens.{Adds, AddsMembers};
ghost use Rattle.wit_json.specs.Interfaces.{clone_members, interface_back, interface_prefix, interface_json, interface_members};

use crate::lists::{AsJson, write_table};
use crate::member_words::Word;
use crate::members::{push_key, push_number, write_optional_id, write_optional_text};
use crate::metadata::{push_docs, push_span, push_stability};
use crate::output::Output;
use std::alloc::AllocError;
use wit_model::Interface;
use wit_types::InterfaceId;

fn push_front(out: &mut Output, interface: &Interface) -> Result<(), AllocError>
    ensures { OnOk result (AddsMembers out.old out.new (interface_prefix interface.now)) }
{
    push_key(out, Word::Name)?;
    write_optional_text(out, &interface.name)?;
    push_key(out, Word::Types)?;
    write_table(out, &interface.types)?;
    push_key(out, Word::Functions)?;
    write_table(out, &interface.functions)
}

fn push_clone(out: &mut Output, of: Option<InterfaceId>) -> Result<(), AllocError>
    ensures { OnOk result (AddsMembers out.old out.new (clone_members of)) }
{
    match of {
        Some(id) => push_number(out, Word::CloneOf, id.index()),
        None => Ok(()),
    }
}

fn push_back(out: &mut Output, interface: &Interface) -> Result<(), AllocError>
    ensures { OnOk result (AddsMembers out.old out.new (interface_back interface.now)) }
{
    push_key(out, Word::Package)?;
    write_optional_id(out, interface.package)?;
    push_clone(out, interface.clone_of)?;
    push_span(out, Word::Span, interface.span)
}

fn push_interface(out: &mut Output, interface: &Interface) -> Result<(), AllocError>
    ensures { OnOk result (AddsMembers out.old out.new (interface_members interface.now)) }
{
    push_front(out, interface)?;
    push_docs(out, &interface.docs)?;
    push_stability(out, &interface.stability)?;
    push_back(out, interface)
}

impl AsJson for Interface {
    ghost json = { interface_json };

    #[tactic(auto, using(crate::proofs::Closing::fields_closed))]
    fn write(&self, out: &mut Output) -> Result<(), AllocError> {
        out.begin_object()?;
        push_interface(out, self)?;
        out.end_object()
    }
}
