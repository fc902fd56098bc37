//! What trees of every sort share: labels, docs and attributes, with texts borrowed from the source.
ghost use Rattle.std.specs.Prelude.{◌≡◌, ◌↔◌, IsTrue, IsSome, IfSome};
ghost use Rattle.wit_names.specs.Label.{is_label};

use semver::Version;
use std::alloc::Global;
use wit_names::validate_id;
use wit_values::Span;

/// A label, and where it is written.
#[derive(Clone, Copy, Debug)]
pub struct Id<'a> {
    /// The label, without a `%` before it.
    pub name: &'a str,
    /// Where it is written, a `%` before it included.
    pub span: Span,
    pub ghost label: { IsTrue (is_label name.now) },
}

impl<'a> Id<'a> {
    /// The name at a place, where the text is a label.
    pub fn new(name: &'a str, span: Span) -> Option<Id<'a>>
        ensures label { IsSome result ↔ IsTrue (is_label name.now) }
        ensures made { IfSome result (λ id. (id.name.now ≡ name.now) × (id.span ≡ span)) }
    {
        match validate_id(name) {
            Ok(()) => Some(Id { name, span }),
            Err(_) => None,
        }
    }
}

/// The comments that document an item, in source order.
#[derive(Debug, Drop)]
pub struct Docs<'a> {
    /// Each comment with its marks: the text from `///` to the end of its line, or from `/**` to
    /// its `*/`.
    pub docs: Vec<&'a str>,
    /// From the first comment to the end of the last; (0, 0) where there is none.
    pub span: Span,
}

impl<'a> Docs<'a> {
    ghost use Rattle.wit_type_tree.specs.Comments.{IsNoDocs};

    /// No comment.
    pub fn none(alloc: Global) -> Self
        ensures { IsNoDocs result }
    {
        Docs {
            docs: Vec::new(alloc),
            span: Span::default(),
        }
    }
}

/// What is written before an item and says since when it is there, or how it is named
/// elsewhere. The span goes from the `@` to the `)`.
#[derive(Debug)]
pub enum Attribute<'a> {
    /// There since a version.
    Since { span: Span, version: Version },
    /// There after a feature alone.
    Unstable { span: Span, feature: Id<'a> },
    /// Deprecated from a version on.
    Deprecated { span: Span, version: Version },
    /// The name of the item elsewhere.
    ExternalId { span: Span, id: &'a str },
}

impl Drop for Attribute<'_> {
    fn drop(self) {
        match self {
            Attribute::Since {
                span: _,
                version: _,
            } => {}
            Attribute::Unstable {
                span: _,
                feature: _,
            } => {}
            Attribute::Deprecated {
                span: _,
                version: _,
            } => {}
            Attribute::ExternalId { span: _, id: _ } => {}
        }
    }
}
