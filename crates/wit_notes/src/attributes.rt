//! What the attributes of an item say: how stable it is, and its name elsewhere.
ghost use Rattle.std.specs.Prelude.{◌≡◌, ◌⊎◌, IfOk};
ghost use Rattle.std.specs.Option.{option_copied};
ghost use Rattle.wit_type_tree.specs.RefusalText.{IsAllocationFailure};
ghost use Rattle.wit_first.specs.AttributeFaults.{each_once_fault, external_fault, kinds_fault, number_of, repeat_fault, stability_fault};
ghost use Rattle.wit_first.specs.First.{Finds};
ghost use Rattle.wit_syntax.specs.Fault.{fault, fault_of};
ghost use Rattle.wit_type_tree.specs.Attributes.{first_of, stated_text, stated_version};
ghost use Rattle.wit_syntax.specs.Metadata.{deprecation, stability_of};
ghost use Rattle.wit_type_tree.specs.declared.attribute_kind.AttributeKind.TheVariants.{Deprecated, ExternalId, Since, Unstable};

use semver::Version;
use std::alloc::{AllocError, Global};
use wit_refusals::refusal::refuse;
use wit_tree::attribute_kind::{AttributeKind, first_of, is_of, kind_of, span_of};
use wit_tree::tree::Attribute;
use wit_tree::{ParseError, ParseResult, Span};
use wit_types::Stability;
use wit_values::{Rare, Release, Text};

/// The version that the first attribute of a kind says.
fn stated_version<'f>(attributes: &'f [Attribute<'_>], kind: AttributeKind) -> Option<&'f Version>
    ensures { option_copied result ≡ stated_version kind attributes.now }
{
    match first_of(attributes, kind) {
        Some(Attribute::Since { version, .. }) => Some(version),
        Some(Attribute::Deprecated { version, .. }) => Some(version),
        _ => None,
    }
}

/// The text that the first attribute of a kind says.
fn stated_text<'a>(attributes: &[Attribute<'a>], kind: AttributeKind) -> Option<&'a str>
    ensures { option_copied result ≡ stated_text kind attributes.now }
{
    match first_of(attributes, kind) {
        Some(Attribute::Unstable { feature, .. }) => Some(feature.name),
        Some(Attribute::ExternalId { id, .. }) => Some(*id),
        _ => None,
    }
}

/// A second attribute of a kind.
fn refuse_second(alloc: Global, kind: AttributeKind, span: Span) -> ParseError
    ensures { IsAllocationFailure result ⊎ (fault_of result ≡ fault (number_of kind) span) }
{
    match kind {
        AttributeKind::Since => refuse(alloc, 30, span, "cannot specify @since twice"),
        AttributeKind::Deprecated => refuse(alloc, 31, span, "cannot specify @deprecated twice"),
        AttributeKind::Unstable => refuse(alloc, 32, span, "cannot specify @unstable twice"),
        AttributeKind::ExternalId => refuse(alloc, 35, span, "cannot specify @external-id twice"),
    }
}

/// Refuses an attribute where an earlier one is of its kind.
fn check_new(alloc: Global, earlier: &[Attribute<'_>], attribute: &Attribute<'_>) -> ParseResult<()>
    ensures { Finds (repeat_fault earlier.now attribute.now) result }
{
    let kind = kind_of(attribute);
    if first_of(earlier, kind).is_some() {
        return Err(refuse_second(alloc, kind, span_of(attribute)));
    }
    Ok(())
}

/// Refuses a second attribute of a kind that says of stability.
fn check_each_once(alloc: Global, attributes: &[Attribute<'_>]) -> ParseResult<()>
    ensures { Finds (each_once_fault attributes.now) result }
{
    for place in 0..attributes.len() {
        let attribute = &attributes[place];
        if !is_of(attribute, AttributeKind::ExternalId) {
            check_new(alloc, &attributes[..place], attribute)?;
        }
    }
    Ok(())
}

/// Refuses a second external id; other attributes are ignored.
pub fn check_external_once(alloc: Global, attributes: &[Attribute<'_>]) -> ParseResult<()>
    ensures { Finds (external_fault attributes.now) result }
{
    for place in 0..attributes.len() {
        let attribute = &attributes[place];
        if is_of(attribute, AttributeKind::ExternalId) {
            check_new(alloc, &attributes[..place], attribute)?;
        }
    }
    Ok(())
}

/// Refuses `@since` beside `@unstable`, and `@deprecated` without either.
fn check_together(alloc: Global, attributes: &[Attribute<'_>]) -> ParseResult<()>
    ensures { Finds (kinds_fault (first_of Since attributes.now) (first_of Unstable attributes.now) (first_of Deprecated attributes.now)) result }
{
    let unstable = first_of(attributes, AttributeKind::Unstable);
    if let Some(since) = first_of(attributes, AttributeKind::Since) {
        if unstable.is_some() {
            let words = "cannot specify both @since and @unstable";
            return Err(refuse(alloc, 33, span_of(since), words));
        }
        return Ok(());
    }
    if unstable.is_some() {
        return Ok(());
    }
    match first_of(attributes, AttributeKind::Deprecated) {
        Some(deprecated) => {
            let words = "cannot specify both @deprecated without @since or @unstable";
            Err(refuse(alloc, 34, span_of(deprecated), words))
        }
        None => Ok(()),
    }
}

/// The version from which on attributes say that a thing is deprecated, if they do.
fn deprecation(alloc: Global, attributes: &[Attribute<'_>]) -> Result<Rare<Release>, AllocError>
    ensures { IfOk result (λ release. release ≡ deprecation attributes.now) }
{
    match stated_version(attributes, AttributeKind::Deprecated) {
        Some(version) => Rare::some(alloc, Release::of(alloc, version)?),
        None => Ok(Rare::none()),
    }
}

/// The stability that attributes say, the first of each kind, whatever rule they break; other
/// attributes are ignored.
///
/// The error is a failed allocation.
pub fn stated_stability(
    alloc: Global,
    attributes: &[Attribute<'_>],
) -> Result<Stability, AllocError>
    ensures { IfOk result (λ stability. stability ≡ stability_of attributes.now) }
{
    if attributes.len() == 0 {
        return Ok(Stability::Unknown);
    }
    let deprecated = deprecation(alloc, attributes)?;
    if let Some(version) = stated_version(attributes, AttributeKind::Since) {
        let since = Release::of(alloc, version)?;
        return Ok(Stability::Stable { since, deprecated });
    }
    match stated_text(attributes, AttributeKind::Unstable) {
        Some(feature) => Ok(Stability::Unstable {
            feature: Text::from_str(alloc, feature)?,
            deprecated,
        }),
        None => Ok(Stability::Unknown),
    }
}

/// Refuses attributes that break a rule of stability; other attributes are ignored.
///
/// The error is that of [`stability`].
pub fn check_stability(alloc: Global, attributes: &[Attribute<'_>]) -> ParseResult<()>
    ensures { Finds (stability_fault attributes.now) result }
{
    if attributes.len() == 0 {
        return Ok(());
    }
    check_each_once(alloc, attributes)?;
    check_together(alloc, attributes)
}

/// The stability that attributes say; other attributes are ignored.
///
/// The error is E30, E31 or E32 at a second `@since`, `@deprecated` or `@unstable`, E33 at a
/// `@since` beside `@unstable`, E34 at a `@deprecated` without either, or a failed allocation.
pub fn stability(alloc: Global, attributes: &[Attribute<'_>]) -> ParseResult<Stability>
    ensures as_stated { IfOk result (λ stability. stability ≡ stability_of attributes.now) }
    ensures first { Finds (stability_fault attributes.now) result }
{
    if attributes.len() == 0 {
        return Ok(Stability::Unknown);
    }
    check_stability(alloc, attributes)?;
    Ok(stated_stability(alloc, attributes)?)
}

/// The external id that attributes say, the first, whatever rule they break; other attributes are
/// ignored.
///
/// The error is a failed allocation.
pub fn stated_external_id(
    alloc: Global,
    attributes: &[Attribute<'_>],
) -> Result<Rare<Text>, AllocError>
    ensures { IfOk result (λ id. id ≡ stated_text ExternalId attributes.now) }
{
    match stated_text(attributes, AttributeKind::ExternalId) {
        Some(id) => Rare::some(alloc, Text::from_str(alloc, id)?),
        None => Ok(Rare::none()),
    }
}

/// The external id that attributes say, if one does; other attributes are ignored.
///
/// The error is E35 at a second external id, or a failed allocation.
pub fn external_id(alloc: Global, attributes: &[Attribute<'_>]) -> ParseResult<Rare<Text>>
    ensures as_stated { IfOk result (λ id. id ≡ stated_text ExternalId attributes.now) }
    ensures first { Finds (external_fault attributes.now) result }
{
    check_external_once(alloc, attributes)?;
    Ok(stated_external_id(alloc, attributes)?)
}
