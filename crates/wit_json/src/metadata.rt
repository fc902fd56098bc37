//! Metadata of an item: docs, stability, external id and span.
ghost use Rattle.std.specs.Prelude.{◌≡◌, ◌++◌, ◌∷◌, [], IfOk, OnOk, codes, string_bytes};
ghost use Rattle.json.specs.Json.{string};
ghost use Rattle.wit_values.specs.ReleaseText.{release_text};
ghost use Rattle.wit_json.specs.declared.member_words.Word.TheVariants as w;
ghost use Rattle.wit_json.specs.ValueTokens.{Adds, AddsMembers};
ghost use Rattle.wit_json.specs.Values.{at, tagged};
ghost use Rattle.wit_json.specs.Metadata.{deprecated_members, docs_members, external_members, known_members, metadata_members, span_json, stability_json, stability_members, stable_json, unstable_json, version_members};

use crate::lists::AsJson;
use crate::member_words::Word;
use crate::members::{open, push_key, push_text};
use crate::output::Output;
use std::alloc::{AllocError, Global};
use wit_types::{Docs, Stability};
use wit_values::{Rare, Release, Span, Text};

impl AsJson for Span {
    ghost json = { span_json };

    fn write(&self, out: &mut Output) -> Result<(), AllocError> {
        out.begin_array()?;
        out.number(self.start as u64)?;
        out.number(self.end as u64)?;
        out.end_array()
    }
}

/// A span under a key.
pub fn push_span(out: &mut Output, name: Word, span: Span) -> Result<(), AllocError>
    ensures { OnOk result (AddsMembers out.old out.new (at name (span_json span) ∷ [])) }
{
    push_key(out, name)?;
    span.write(out)
}

/// The text of docs.
fn write_contents(out: &mut Output, text: &str) -> Result<(), AllocError>
    ensures { OnOk result (Adds out.old out.new (tagged w.Contents (string text.now))) }
{
    open(out, Word::Contents)?;
    out.string(text)?;
    out.end_object()
}

/// Docs, if there are some.
pub fn push_docs(out: &mut Output, docs: &Docs) -> Result<(), AllocError>
    ensures { OnOk result (AddsMembers out.old out.new (docs_members docs.now.contents)) }
{
    match &docs.contents {
        Some(text) => {
            push_key(out, Word::Docs)?;
            write_contents(out, text.as_str())
        }
        None => Ok(()),
    }
}

/// An external id, if there is one.
pub fn push_external(out: &mut Output, id: &Rare<Text>) -> Result<(), AllocError>
    ensures { OnOk result (AddsMembers out.old out.new (external_members id.now)) }
{
    match id.get() {
        Some(id) => push_text(out, Word::ExternalId, id.as_str()),
        None => Ok(()),
    }
}

fn release_string(alloc: Global, release: &Release) -> Result<String, AllocError>
    ensures { IfOk result (λ text. string_bytes text ≡ release_text release.now) }
{
    format!(in alloc; "{release}")
}

/// A version under a key.
fn push_release(out: &mut Output, name: Word, release: &Release) -> Result<(), AllocError>
    ensures { OnOk result (AddsMembers out.old out.new (version_members name release.now)) }
{
    let text = release_string(out.alloc(), release)?;
    push_text(out, name, text.as_str())
}

/// The version since which an item is deprecated, if there is one.
fn push_deprecated(out: &mut Output, deprecated: &Rare<Release>) -> Result<(), AllocError>
    ensures { OnOk result (AddsMembers out.old out.new (deprecated_members deprecated.now)) }
{
    match deprecated.get() {
        Some(version) => push_release(out, Word::Deprecated, version),
        None => Ok(()),
    }
}

#[tactic(auto, using(crate::proofs::Closing::fields_closed))]
fn write_unstable(
    out: &mut Output,
    feature: &Text,
    deprecated: &Rare<Release>,
) -> Result<(), AllocError>
    ensures { OnOk result (Adds out.old out.new (unstable_json feature.now deprecated.now)) }
{
    out.begin_object()?;
    push_text(out, Word::Feature, feature.as_str())?;
    push_deprecated(out, deprecated)?;
    out.end_object()
}

#[tactic(auto, using(crate::proofs::Closing::fields_closed))]
fn write_stable(
    out: &mut Output,
    since: &Release,
    deprecated: &Rare<Release>,
) -> Result<(), AllocError>
    ensures { OnOk result (Adds out.old out.new (stable_json since.now deprecated.now)) }
{
    out.begin_object()?;
    push_release(out, Word::Since, since)?;
    push_deprecated(out, deprecated)?;
    out.end_object()
}

impl AsJson for Stability {
    ghost json = { stability_json };

    fn write(&self, out: &mut Output) -> Result<(), AllocError> {
        match self {
            Stability::Unknown => out.string("unknown"),
            Stability::Unstable {
                feature,
                deprecated,
            } => {
                open(out, Word::Unstable)?;
                write_unstable(out, feature, deprecated)?;
                out.end_object()
            }
            Stability::Stable { since, deprecated } => {
                open(out, Word::Stable)?;
                write_stable(out, since, deprecated)?;
                out.end_object()
            }
        }
    }
}

/// A stability under its key.
fn push_known(out: &mut Output, stability: &Stability) -> Result<(), AllocError>
    ensures { OnOk result (AddsMembers out.old out.new (known_members stability.now)) }
{
    push_key(out, Word::Stability)?;
    stability.write(out)
}

/// The stability of an item, if an attribute gives it.
pub fn push_stability(out: &mut Output, stability: &Stability) -> Result<(), AllocError>
    ensures { OnOk result (AddsMembers out.old out.new (stability_members stability.now)) }
{
    match stability {
        Stability::Unknown => Ok(()),
        Stability::Unstable { .. } | Stability::Stable { .. } => push_known(out, stability),
    }
}

/// Docs, stability and external id, each if there is one.
pub fn push_metadata(
    out: &mut Output,
    docs: &Docs,
    stability: &Stability,
    external_id: &Rare<Text>,
) -> Result<(), AllocError>
    ensures { OnOk result (AddsMembers out.old out.new (metadata_members docs.now.contents stability.now external_id.now)) }
{
    push_docs(out, docs)?;
    push_stability(out, stability)?;
    push_external(out, external_id)
}
