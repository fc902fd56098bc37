//! The entries of the arena of types.
ghost use Rattle.std.specs.Prelude.{◌≡◌, OnOk};
ghost use Rattle.wit_json.specs.ValueTokens.{Adds, AddsMembers};
ghost use Rattle.wit_json.specs.Types.{def_prefix, def_json, def_members, owner_json};

use crate::kinds::write_tagged;
use crate::lists::AsJson;
use crate::member_words::Word;
use crate::members::{push_key, write_optional_text};
use crate::metadata::{push_metadata, push_span};
use crate::output::Output;
use std::alloc::AllocError;
use wit_types::{TypeDef, TypeOwner};

fn write_owner(out: &mut Output, owner: TypeOwner) -> Result<(), AllocError>
    ensures { OnOk result (Adds out.old out.new (owner_json owner)) }
{
    match owner {
        TypeOwner::World(world) => write_tagged(out, Word::World, world.index()),
        TypeOwner::Interface(interface) => write_tagged(out, Word::Interface, interface.index()),
        TypeOwner::None => out.null(),
    }
}

fn push_front(out: &mut Output, def: &TypeDef) -> Result<(), AllocError>
    ensures { OnOk result (AddsMembers out.old out.new (def_prefix def.now)) }
{
    push_key(out, Word::Name)?;
    write_optional_text(out, &def.name)?;
    push_key(out, Word::Kind)?;
    def.kind.write(out)?;
    push_key(out, Word::Owner)?;
    write_owner(out, def.owner)
}

fn push_def(out: &mut Output, def: &TypeDef) -> Result<(), AllocError>
    ensures { OnOk result (AddsMembers out.old out.new (def_members def.now)) }
{
    push_front(out, def)?;
    push_metadata(out, &def.docs, &def.stability, &def.external_id)?;
    push_span(out, Word::Span, def.span)
}

impl AsJson for TypeDef {
    ghost json = { def_json };

    #[tactic(auto, using(crate::proofs::Closing::fields_closed))]
    fn write(&self, out: &mut Output) -> Result<(), AllocError> {
        out.begin_object()?;
        push_def(out, self)?;
        out.end_object()
    }
}
