//! The sources of a package, one after the other.
ghost use Rattle.std.specs.Prelude.{◌≡◌, ◌+◌, ◌<◌, ◌≤◌, ◌++◌, ◌∷◌, [], ℕ, length, slice_get, OnOk, OnErr, IfErr, IfSome, IfNone, Some, IsTrue, ◌↔◌};
ghost use Rattle.wit_lex.specs.declared.source.Source.{Source};
ghost use Rattle.wit_lex.specs.Places.{IsPlace};
ghost use Rattle.wit_lex.specs.Sources.{IsLocated, IsTooLarge, LiesIn, space, as_stated};

use crate::place::Place;
use crate::source::Source;
use std::alloc::{AllocError, Global};
use wit_type_tree::{ParseError, ParseErrorKind, ParseResult};
use wit_values::Span;

/// Sources, each with a range of places of its own.
///
/// The first begins at 0, and each other one place after the end of the one before, so that the
/// end of a source is no place of the next.
#[derive(Debug, PartialEq, Eq, Drop)]
pub struct SourceMap {
    sources: Vec<Source>,
    end: u32,
    pub ghost laid: { end ≡ space sources.items },
}

impl SourceMap {
    ghost use Rattle.wit_lex.specs.Places.{IsPlace};
    ghost use Rattle.wit_lex.specs.Sources.{IsSource, IsLocated, LiesIn, IsTooLarge};

    /// No source.
    pub fn new(alloc: Global) -> Self
        ensures sources { result.sources.items ≡ [] }
    {
        SourceMap {
            sources: Vec::new(alloc),
            end: 0,
        }
    }

    /// The sources, in the order in which they were pushed.
    pub fn sources(&self) -> &[Source]
        ensures { result.now ≡ self.now.sources.items }
    {
        self.sources.as_slice()
    }

    /// Adds a source after the others.
    ///
    /// Refused under the number 52, at (0, 0), where the lengths of all sources, and one place more
    /// for each, are more than 4,294,967,295 together, and under 45 if an allocation failed. Then the map
    /// is as it was.
    pub fn push(&mut self, alloc: Global, path: &str, contents: &str) -> ParseResult<()>
        ensures sources { OnOk result ((s : _) × IsSource path.now contents.now (space self.old.sources.items) s × (self.new.sources.items ≡ self.old.sources.items ++ s ∷ [])) }
        ensures fits { OnOk result (space self.old.sources.items + length contents.now + 1 ≤ 4294967295) }
        ensures too_large { IfErr result (λ e. IsTooLarge (space self.old.sources.items + length contents.now + 1) e) }
        ensures unchanged { OnErr result (self.new.sources.items ≡ self.old.sources.items) }
    {
        let len = contents.len();
        let offset = self.end;
        if len >= (u32::MAX - offset) as usize {
            return Err(too_large(alloc));
        }
        let path = String::from_str(alloc, path)?;
        let contents = String::from_str(alloc, contents)?;
        self.sources.push(Source {
            path,
            contents,
            offset,
        })?;
        self.end = offset + len as u32 + 1;
        Ok(())
    }

    /// The path, and the span's slice of the source in which both ends lie, its end included, on
    /// character borders.
    pub fn locate(&self, span: Span) -> Option<(&str, &str)>
        ensures found { IfSome result (λ found. (i : ℕ) × (s : _) × (slice_get self.now.sources.items i ≡ Some s) × IsLocated s span found.0.now found.1.now) }
        ensures none { IfNone result ((i : ℕ) (s : _) → slice_get self.now.sources.items i ≡ Some s → LiesIn s span → ⊥) }
    {
        let Some(source) = source_with(self.sources.as_slice(), span) else {
            return None;
        };
        source.locate(span)
    }

    /// Where the span begins in the source in which both of its ends lie: path, line and column, and what
    /// the line says. A refusal is shown by it as compilers show theirs.
    pub fn place(&self, span: Span) -> Option<Place<'_>>
        ensures found { IfSome result (λ found. (i : ℕ) × (s : _) × (slice_get self.now.sources.items i ≡ Some s) × IsPlace s span found) }
        ensures none { IfNone result ((i : ℕ) (s : _) → slice_get self.now.sources.items i ≡ Some s → LiesIn s span → ⊥) }
    {
        let Some(source) = source_with(self.sources.as_slice(), span) else {
            return None;
        };
        source.place(span)
    }
}

impl Clone for SourceMap {
    ghost is_clone = { λ map copy. as_stated copy.sources.items ≡ as_stated map.sources.items };

    fn clone(&self) -> Result<SourceMap, AllocError> {
        Ok(SourceMap {
            sources: self.sources.clone()?,
            end: self.end,
        })
    }
}

/// The source in which both ends of a span lie, its end included, on character borders.
pub fn source_with(sources: &[Source], span: Span) -> Option<&Source>
    ensures found { IfSome result (λ source. (i : ℕ) × (slice_get sources.now i ≡ Some source.now) × LiesIn source.now span) }
    ensures none { IfNone result ((i : ℕ) (s : Source) → slice_get sources.now i ≡ Some s → LiesIn s span → ⊥) }
{
    for source in sources {
        if let Some(_place) = source.locate(span) {
            return Some(source);
        }
    }
    None
}

/// Whether two maps have the same sources: path, text and place of each, by `==`.
pub fn is_same_map(a: &SourceMap, b: &SourceMap) -> bool
    ensures { IsTrue result ↔ (as_stated a.now.sources.items ≡ as_stated b.now.sources.items) }
{
    a == b
}

/// The refusal of sources that are too large.
fn too_large(alloc: Global) -> ParseError
    ensures { (end : ℕ) → 4294967295 < end → IsTooLarge end result }
{
    match String::from_str(alloc, "sources too large") {
        Ok(message) => {
            let span = Span::default();
            ParseError::of(ParseErrorKind::Syntax { span, message }, 52)
        }
        Err(e) => e.into(),
    }
}
