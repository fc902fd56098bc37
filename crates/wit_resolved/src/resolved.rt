//! What sources and files make.
ghost use Rattle.std.specs.Prelude.{◌≡◌, IfErr, IfOk, None};
ghost use Rattle.wit_syntax.specs.Broken.{IsBroken, Refused};
ghost use Rattle.wit_arena.specs.Faithful.{IsMadeOf};
ghost use Rattle.wit_first.specs.First.{FindsBy};
ghost use Rattle.wit_walk.specs.Walk.{ComesTo};
ghost use Rattle.wit_groups.specs.Groups.{IsAlone, IsGroup, IsRefused, IsUnparsed};
ghost use Rattle.wit_groups.specs.SourceFaults.{FindsBeside, HaveFirst, TextHasFirst};
ghost use Rattle.wit_resolved.specs.Valid.{AreMade, IsMade};

use crate::package_ref::{PackageRef, PackageRefs};
use std::alloc::Global;
use wit_groups::{Resolver, UnresolvedPackageGroup};
use wit_lex::SourceMap;
use wit_model::UnresolvedPackage;
use wit_type_tree::{ParseError, ParseResult};

/// The package that files make.
#[derive(Drop)]
pub struct ResolvedPackage {
    resolved: UnresolvedPackage,
    pub ghost made: { ∥ IsMade resolved ∥₁ },
}

/// The group that sources make.
#[derive(Drop)]
pub struct ResolvedGroup {
    group: UnresolvedPackageGroup,
    pub ghost main: { ∥ IsMade group.main ∥₁ },
    pub ghost nested: { ∥ AreMade group.nested ∥₁ },
}

impl ResolvedPackage {
    /// The package that the files of a resolver make.
    ///
    /// # Errors
    ///
    /// As `Resolver::resolve`.
    pub fn resolve(alloc: Global, resolver: Resolver<'_>) -> ParseResult<ResolvedPackage>
        ensures made { IfOk result (λ it. IsMadeOf resolver.entry.files.items it.resolved) }
        ensures first { FindsBy (ComesTo resolver.entry.files.items) result }
        ensures refused { IfErr result (Refused (IsBroken resolver.entry.files.items)) }
    {
        let resolved = resolver.resolve(alloc)?;
        Ok(ResolvedPackage { resolved })
    }

    /// The package, borrowed.
    pub fn as_ref(&self) -> PackageRef<'_>
        ensures { result.of.now ≡ self.now.resolved }
    {
        PackageRef::of(&self.resolved)
    }

    /// The package by itself, which can be changed.
    pub fn into_package(self) -> UnresolvedPackage
        ensures { result ≡ self.resolved }
    {
        let ResolvedPackage { resolved } = self;
        resolved
    }
}

impl ResolvedGroup {
    /// The group that the map's sources make.
    ///
    /// # Errors
    ///
    /// As `UnresolvedPackageGroup::from_sources`: the map is given back with the first refusal.
    pub fn from_sources(alloc: Global, map: SourceMap) -> Result<Self, (SourceMap, ParseError)>
        ensures group { IfOk result (λ it. IsGroup map.sources.items it.group.main it.group.nested) }
        ensures kept { IfOk result (λ it. it.group.source_map ≡ map) }
        ensures first { FindsBeside (HaveFirst map.sources.items) result }
        ensures refused { IfErr result (λ e. IsRefused map.sources.items e.1) }
        ensures returned { IfErr result (λ e. e.0 ≡ map) }
    {
        match UnresolvedPackageGroup::from_sources(alloc, map) {
            Ok(group) => Ok(ResolvedGroup { group }),
            Err(refusal) => Err(refusal),
        }
    }

    /// The group that a text makes, as the only source.
    ///
    /// # Errors
    ///
    /// As `UnresolvedPackageGroup::parse`.
    pub fn parse(alloc: Global, path: &str, contents: &str) -> Result<Self, (SourceMap, ParseError)>
        ensures source { IfOk result (λ it. IsAlone path.now contents.now it.group.source_map.sources.items) }
        ensures group { IfOk result (λ it. IsGroup it.group.source_map.sources.items it.group.main it.group.nested) }
        ensures faultless { IfOk result (λ it. HaveFirst it.group.source_map.sources.items None) }
        ensures first { FindsBeside (TextHasFirst path.now contents.now) result }
        ensures refused { IfErr result (λ e. IsUnparsed path.now contents.now e.0.sources.items e.1) }
    {
        match UnresolvedPackageGroup::parse(alloc, path, contents) {
            Ok(group) => Ok(ResolvedGroup { group }),
            Err(refusal) => Err(refusal),
        }
    }

    /// The package of the sources.
    pub fn main(&self) -> PackageRef<'_>
        ensures { result.of.now ≡ self.now.group.main }
    {
        PackageRef::of(&self.group.main)
    }

    /// The nested packages, in the order of the sources' paths, and in each source as they are written.
    pub fn nested(&self) -> PackageRefs<'_>
        ensures { result.left.now ≡ self.now.group.nested }
    {
        PackageRefs {
            left: self.group.nested.as_slice(),
        }
    }

    /// The group itself, borrowed.
    pub fn get(&self) -> &UnresolvedPackageGroup
        ensures { result.now ≡ self.now.group }
    {
        &self.group
    }

    /// The group by itself, which can be changed.
    pub fn into_group(self) -> UnresolvedPackageGroup
        ensures { result ≡ self.group }
    {
        let ResolvedGroup { group } = self;
        group
    }
}
