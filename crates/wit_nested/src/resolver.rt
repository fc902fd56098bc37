//! From parsed files to a package and those that are nested in them.
ghost use Rattle.std.specs.Prelude.{◌≡◌, ◌++◌, ◌∷◌, [], IfErr, IfOk, OnErr, OnOk};
ghost use Rattle.wit_syntax.specs.Fault.{Fault};
ghost use Rattle.wit_syntax.specs.Broken.{Refused};
ghost use Rattle.wit_arena.specs.Faithful.{IsMadeOf};
ghost use Rattle.wit_nested.specs.Nested.{GrowByNested, IsUnfit};
ghost use Rattle.wit_nested.specs.PackageNames.{AreNamedApart, IsUnjoined};
ghost use Rattle.wit_nested.specs.PushFaults.{FindsWalked, source_fault};
ghost use Rattle.wit_nested.specs.GroupFaults.{FindsJoined};

use crate::nested::{alone, resolve_all};
use crate::package_names::check_names;
use std::alloc::Global;
use wit_model::UnresolvedPackage;
use wit_parser::Resolver;
use wit_tree::ParseResult;
use wit_tree::tree::SourceFile;

/// Files of one package, which are to be resolved together, and the packages that were nested in them,
/// which are resolved already, each by itself.
#[derive(Drop)]
pub struct GroupResolver<'a> {
    main: Resolver<'a>,
    nested: Vec<UnresolvedPackage>,
}

impl<'a> GroupResolver<'a> {
    /// A resolver with no file.
    pub fn new(alloc: Global) -> Self
        ensures files { result.main.files.items ≡ [] }
        ensures nested { result.nested.items ≡ [] }
    {
        GroupResolver {
            main: Resolver::new(alloc),
            nested: Vec::new(alloc),
        }
    }

    /// Adds the file of a source after the others. Each package that is nested in the source, in order,
    /// is taken as a file of its own, with its name as the header, and is resolved by itself.
    ///
    /// # Errors
    ///
    /// A refusal leaves files and packages as they were. Of several faults it names the first: nested
    /// packages come in their order, and then the file.
    ///
    /// - 3, at the inner package's name: a package is nested in a nested one.
    /// - 4 to 44: a nested package breaks a rule by itself, as `Resolver::resolve` says.
    /// - 1, 2: the file conflicts with the files before it, as `Resolver::push` says.
    /// - 45: an allocation failed.
    pub fn push(&mut self, alloc: Global, source: SourceFile<'a>) -> ParseResult<()>
        ensures files { OnOk result (self.new.main.files.items ≡ self.old.main.files.items ++ source.entry.file ∷ []) }
        ensures nested { OnOk result (GrowByNested source.entry.nested.items self.old.nested.items self.new.nested.items) }
        ensures accepted { OnOk result ((f : Fault) → IsUnfit self.old.main.files.items source.entry f → ⊥) }
        ensures files_unchanged { OnErr result (self.new.main.files.items ≡ self.old.main.files.items) }
        ensures nested_unchanged { OnErr result (self.new.nested.items ≡ self.old.nested.items) }
        ensures first { FindsWalked (λ walk. source_fault walk self.old.main.files.items source.entry) result }
        ensures refused { IfErr result (Refused (IsUnfit self.old.main.files.items source.entry)) }
    {
        let SourceFile { file, nested } = source;
        let mut made = resolve_all(alloc, nested)?;
        let kept = self.nested.len();
        self.nested.append(&mut made)?;
        match self.main.push(alloc, alone(alloc, file)) {
            Ok(()) => Ok(()),
            Err(e) => {
                self.nested.truncate(kept);
                Err(e)
            }
        }
    }

    /// The package that the files make, without what is nested in them, and the packages that are
    /// nested in them, in the order in which they were pushed.
    ///
    /// # Errors
    ///
    /// - 4 to 45, as `Resolver::resolve` says, of the main package: all others are resolved already.
    /// - 53, at the nested package's name, found last: it has the name of the main one, or of a nested one
    ///   before it. Versions count.
    pub fn resolve(self, alloc: Global) -> ParseResult<(UnresolvedPackage, Vec<UnresolvedPackage>)>
        ensures made { IfOk result (λ made. IsMadeOf self.entry.main.files.items made.0) }
        ensures nested { IfOk result (λ made. made.1.items ≡ self.entry.nested.items) }
        ensures apart { IfOk result (λ made. AreNamedApart made.0 made.1.items) }
        ensures first { FindsJoined self.entry.main.files.items self.entry.nested.items result }
        ensures refused { IfErr result (Refused (IsUnjoined self.entry.main.files.items self.entry.nested.items)) }
    {
        let GroupResolver { main, nested } = self;
        let made = main.resolve(alloc)?;
        check_names(alloc, &made, &nested)?;
        Ok((made, nested))
    }
}
