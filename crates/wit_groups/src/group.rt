//! From sources to a group.
ghost use Rattle.std.specs.Prelude.{◌≡◌, IfErr, IfOk, None, map};
ghost use Rattle.wit_lex.specs.Sources.{as_stated};
ghost use Rattle.wit_first.specs.First.{FindsBy};
ghost use Rattle.wit_groups.specs.Groups.{AreRefused, AreUsed, IsAlone, IsGroup, IsRefused, IsTree, IsUnparsed, IsUnread};
ghost use Rattle.wit_groups.specs.SourceFaults.{AreStopped, FindsBeside, HaveFirst, TextHasFirst};

use std::alloc::{AllocError, Global};
use wit_bundle::by_path;
use wit_model::UnresolvedPackage;
use wit_nested::resolver::GroupResolver;
use wit_text::{Source, SourceMap, read_file};
use wit_tree::tree::SourceFile;
use wit_tree::{ParseError, ParseResult};
use wit_values::Row;

/// The package that sources make, those that are nested in it, and the sources.
///
/// Two are equal if their packages and their sources are.
#[derive(Debug, PartialEq, Eq, Drop)]
pub struct UnresolvedPackageGroup {
    pub main: UnresolvedPackage,
    /// In the order of the sources' paths, and in each source as they are written.
    pub nested: Row<UnresolvedPackage>,
    /// The sources that all spans refer to.
    pub source_map: SourceMap,
}

fn copy_packages(packages: &Row<UnresolvedPackage>) -> Result<Row<UnresolvedPackage>, AllocError>
    ensures { IfOk result (λ copy. copy ≡ packages.now) }
{
    packages.clone()
}

impl Clone for UnresolvedPackageGroup {
    ghost is_clone = { λ group copy. (copy.main ≡ group.main) × (copy.nested ≡ group.nested) × (as_stated copy.source_map.sources.items ≡ as_stated group.source_map.sources.items) };

    fn clone(&self) -> Result<UnresolvedPackageGroup, AllocError> {
        Ok(UnresolvedPackageGroup {
            main: self.main.clone()?,
            nested: copy_packages(&self.nested)?,
            source_map: self.source_map.clone()?,
        })
    }
}

/// The tree of a source.
fn read_source<'a>(alloc: Global, source: &'a Source) -> ParseResult<SourceFile<'a>>
    ensures tree { IfOk result (IsTree source.now) }
    ensures unread { IfErr result (IsUnread source.now) }
{
    read_file(alloc, source.contents.as_str(), source.offset)
}

/// A resolver with the trees of sources, one after the other.
fn push_all<'a>(alloc: Global, turn: &[&'a Source]) -> ParseResult<GroupResolver<'a>>
    ensures in_use { IfOk result (λ resolver. AreUsed (map (λ s. s.now) turn.now) resolver.main.files.items resolver.nested.items) }
    ensures first { IfErr result (AreStopped (map (λ s. s.now) turn.now)) }
    ensures refused { IfErr result (AreRefused (map (λ s. s.now) turn.now)) }
{
    let mut resolver = GroupResolver::new(alloc);
    for source in turn {
        let file = read_source(alloc, source)?;
        resolver.push(alloc, file)?;
    }
    Ok(resolver)
}

/// The package that sources make, which are taken by path, and those that are nested in it.
fn resolve_sources(
    alloc: Global,
    sources: &[Source],
) -> ParseResult<(UnresolvedPackage, Vec<UnresolvedPackage>)>
    ensures group { IfOk result (λ made. IsGroup sources.now made.0 made.1.items) }
    ensures first { FindsBy (HaveFirst sources.now) result }
    ensures refused { IfErr result (IsRefused sources.now) }
{
    let turn = by_path(alloc, sources)?;
    let resolver = push_all(alloc, &turn)?;
    resolver.resolve(alloc)
}

impl UnresolvedPackageGroup {
    /// The group that the map's sources make. Sources are read by path, byte by byte, and those with equal
    /// paths in push order. Each is then pushed to a `GroupResolver`.
    ///
    /// # Errors
    ///
    /// The map is given back as it was, with the first refusal: of reading a source, of pushing it, or
    /// of resolving all.
    pub fn from_sources(alloc: Global, map: SourceMap) -> Result<Self, (SourceMap, ParseError)>
        ensures group { IfOk result (λ group. IsGroup map.sources.items group.main group.nested) }
        ensures kept { IfOk result (λ group. group.source_map ≡ map) }
        ensures first { FindsBeside (HaveFirst map.sources.items) result }
        ensures refused { IfErr result (λ e. IsRefused map.sources.items e.1) }
        ensures returned { IfErr result (λ e. e.0 ≡ map) }
    {
        match resolve_sources(alloc, map.sources()) {
            Ok((main, nested)) => Ok(UnresolvedPackageGroup {
                main,
                nested: Row::from(nested),
                source_map: map,
            }),
            Err(e) => Err((map, e)),
        }
    }

    /// The group that a text makes, as the only source.
    ///
    /// # Errors
    ///
    /// - 52: the text is longer than 4,294,967,294 bytes. The map that is given back is empty.
    /// - else as `from_sources`, with a map of this source.
    pub fn parse(alloc: Global, path: &str, contents: &str) -> Result<Self, (SourceMap, ParseError)>
        ensures source { IfOk result (λ group. IsAlone path.now contents.now group.source_map.sources.items) }
        ensures group { IfOk result (λ group. IsGroup group.source_map.sources.items group.main group.nested) }
        ensures faultless { IfOk result (λ group. HaveFirst group.source_map.sources.items None) }
        ensures first { FindsBeside (TextHasFirst path.now contents.now) result }
        ensures refused { IfErr result (λ e. IsUnparsed path.now contents.now e.0.sources.items e.1) }
    {
        let mut map = SourceMap::new(alloc);
        match map.push(alloc, path, contents) {
            Ok(()) => UnresolvedPackageGroup::from_sources(alloc, map),
            Err(e) => Err((map, e)),
        }
    }
}
