//! The kinds of attributes.
ghost use Rattle.std.specs.Prelude.{◌≡◌};
ghost use Rattle.std.specs.Option.{option_copied};
ghost use Rattle.wit_type_tree.specs.Attributes.{attribute_span, first_of, is_of, kind_of};

use crate::leaves::Attribute;
use wit_values::Span;

/// The kind of an attribute.
#[derive(Debug, Clone, Copy)]
pub enum AttributeKind {
    Since,
    Unstable,
    Deprecated,
    ExternalId,
}

/// The kind of an attribute.
pub fn kind_of(attribute: &Attribute<'_>) -> AttributeKind
    ensures { result ≡ kind_of attribute.now }
{
    match attribute {
        Attribute::Since { .. } => AttributeKind::Since,
        Attribute::Unstable { .. } => AttributeKind::Unstable,
        Attribute::Deprecated { .. } => AttributeKind::Deprecated,
        Attribute::ExternalId { .. } => AttributeKind::ExternalId,
    }
}

/// Whether an attribute is of a kind.
pub fn is_of(attribute: &Attribute<'_>, kind: AttributeKind) -> bool
    ensures { result ≡ is_of kind attribute.now }
{
    match (kind, attribute) {
        (AttributeKind::Since, Attribute::Since { .. }) => true,
        (AttributeKind::Unstable, Attribute::Unstable { .. }) => true,
        (AttributeKind::Deprecated, Attribute::Deprecated { .. }) => true,
        (AttributeKind::ExternalId, Attribute::ExternalId { .. }) => true,
        _ => false,
    }
}

/// Where an attribute is.
pub fn span_of(attribute: &Attribute<'_>) -> Span
    ensures { result ≡ attribute_span attribute.now }
{
    match attribute {
        Attribute::Since { span, .. } => *span,
        Attribute::Unstable { span, .. } => *span,
        Attribute::Deprecated { span, .. } => *span,
        Attribute::ExternalId { span, .. } => *span,
    }
}

/// The first attribute of a kind.
pub fn first_of<'f, 'a>(
    attributes: &'f [Attribute<'a>],
    kind: AttributeKind,
) -> Option<&'f Attribute<'a>>
    ensures { option_copied result ≡ first_of kind attributes.now }
{
    attributes.iter().find(|attribute| is_of(attribute, kind))
}
