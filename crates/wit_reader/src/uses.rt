//! Reading paths, what an interface or a world uses, and other names for items.
ghost use Rattle.std.specs.Prelude.{◌≡◌, map, IfOk, IfErr};
ghost use Rattle.std.specs.Option.{option_map};
ghost use Rattle.wit_lex.specs.declared.kind.Kind.TheVariants.{Dot, Semicolon};
ghost use Rattle.wit_grammar.specs.Seen.{see_name, see_path, see_top_use, see_use, see_used};
ghost use Rattle.wit_grammar.specs.Grammar.{◌▸◌, ◌◂◌};
ghost use Rattle.wit_grammar.specs.Rules.{item_path, joined, local, path, rest_of_path, top_used, used, used_name, used_names};
ghost use Rattle.wit_reader.specs.After.{item_after, rest_after, top_use_after, use_after};
ghost use Rattle.wit_reader.specs.FoundVersions.{found_version};

use crate::reader::Reader;
use crate::room::add;
use semver::Version;
use wit_lex::fault::ReadResult;
use wit_lex::kind::Kind;
use wit_lex::word::Word;
use wit_tree::Span;
use wit_tree::tree::{Attribute, Docs, Id, PackageName, ToplevelUse, Use, UseName, UsePath};
use wit_values::{pair_with, shrunk};

/// The package that a path names, with the version that was found after the item's name.
fn path_package<'a>(
    docs: Docs<'a>,
    namespace: Id<'a>,
    name: Id<'a>,
    found: Option<(Span, Version)>,
) -> PackageName<'a>
    ensures docs { result.docs ≡ docs.entry }
    ensures namespace { result.namespace ≡ namespace.entry }
    ensures name { result.name ≡ name.entry }
    ensures span { result.span ≡ joined namespace.entry.span name.entry.span }
    ensures version { result.version ≡ found_version found }
{
    let version = match found {
        Some((_, version)) => Some(version),
        None => None,
    };
    let span = Span {
        start: namespace.span.start,
        end: name.span.end,
    };
    PackageName {
        docs,
        span,
        namespace,
        name,
        version,
    }
}

impl<'a> Reader<'a> {
    ghost use Rattle.wit_reader.specs.Reading.{Reads, ReadsOn, Refuses};

    /// Reads the rest of a path with a package after the two names of that: `/name`, and perhaps a
    /// version.
    #[tactic(auto, using(crate::proofs::Paths::package_seen), unfolding(wit_grammar::specs::Rules::item_path))]
    pub fn read_item_path(&mut self, first: Id<'a>, second: Id<'a>) -> ReadResult<UsePath<'a>>
        ensures reads { IfOk result (λ it. Reads (item_after first.entry second.entry) self.old (see_path it) self.new) }
        ensures stops { IfErr result (Refuses item_path self.old) }
    {
        self.expect(Kind::Slash)?;
        let name = self.read_id()?;
        let found = self.read_at_version()?;
        let docs = Docs::none(self.alloc);
        let id = path_package(docs, first, second, found);
        Ok(UsePath::Package { id, name })
    }

    /// Reads the rest of a path after its first name: nothing, or `:name/name` with perhaps a
    /// version.
    #[tactic(auto, using(crate::proofs::Paths::rest_made), unfolding(wit_grammar::specs::Rules::rest_of_path, wit_grammar::specs::Leaves::mark_at))]
    pub fn read_rest_of_path(&mut self, first: Id<'a>) -> ReadResult<UsePath<'a>>
        ensures reads { IfOk result (λ it. ReadsOn (rest_after first.entry) self.old (see_path it) self.new) }
        ensures stops { IfErr result (Refuses rest_of_path self.old) }
    {
        if !self.at(Kind::Colon) {
            return Ok(UsePath::Id(first));
        }
        self.bump()?;
        let second = self.read_id()?;
        let path = self.read_item_path(first, second)?;
        Ok(path)
    }

    /// Reads a path: a name of the package, or `name:name/name` with perhaps a version after it.
    #[tactic(auto, unfolding(wit_grammar::specs::Rules::path))]
    pub fn read_path(&mut self) -> ReadResult<UsePath<'a>>
        ensures reads { IfOk result (λ it. Reads path self.old (see_path it) self.new) }
        ensures stops { IfErr result (Refuses path self.old) }
    {
        let first = self.read_id()?;
        let path = self.read_rest_of_path(first)?;
        Ok(path)
    }

    /// Reads `as` and the local name, where there is one.
    #[tactic(auto, unfolding(wit_grammar::specs::Rules::local, wit_grammar::specs::Leaves::mark_at))]
    fn read_local(&mut self) -> ReadResult<Option<Id<'a>>>
        ensures reads { IfOk result (λ it. ReadsOn local self.old (option_map see_name it) self.new) }
        ensures stops { IfErr result (Refuses local self.old) }
    {
        if !self.at_word(Word::As) {
            return Ok(None);
        }
        self.bump()?;
        let local = self.read_id()?;
        Ok(Some(local))
    }

    /// Reads a used name, perhaps with a local name after it.
    #[tactic(auto, unfolding(wit_grammar::specs::Rules::used_name))]
    fn read_used(&mut self) -> ReadResult<UseName<'a>>
        ensures reads { IfOk result (λ it. Reads used_name self.old (see_used it) self.new) }
        ensures stops { IfErr result (Refuses used_name self.old) }
    {
        let name = self.read_id()?;
        let local = self.read_local()?;
        Ok(UseName { name, as_: local })
    }

    /// Reads used names in braces.
    fn read_used_names(&mut self) -> ReadResult<Vec<UseName<'a>>>
        ensures reads { IfOk result (λ it. Reads used_names self.old (map see_used it.items) self.new) }
        ensures stops { IfErr result (Refuses used_names self.old) }
    {
        let mut more = self.open_list(Kind::OpenBrace, Kind::CloseBrace)?;
        let mut names = Vec::new(self.alloc);
        'names: while more {
            let used = self.read_used()?;
            add(&mut names, used, self.at(Kind::CloseBrace))?;
            more = self.next_in_list(Kind::CloseBrace)?;
        }
        Ok(shrunk(names))
    }

    /// Reads what follows the path of a `use`: `.{name, name as name, ..};`.
    fn read_after_path(&mut self) -> ReadResult<Vec<UseName<'a>>>
        ensures reads { IfOk result (λ it. Reads (Dot ▸ (used_names ◂ Semicolon)) self.old (map see_used it.items) self.new) }
        ensures stops { IfErr result (Refuses (Dot ▸ (used_names ◂ Semicolon)) self.old) }
    {
        self.expect(Kind::Dot)?;
        let names = self.read_used_names()?;
        self.expect(Kind::Semicolon)?;
        Ok(names)
    }

    /// Reads `use path.{name, name as name, ..};`.
    #[tactic(auto, unfolding(wit_grammar::specs::Rules::used))]
    pub fn read_use(&mut self, attributes: Vec<Attribute<'a>>) -> ReadResult<Use<'a>>
        ensures reads { IfOk result (λ it. Reads (use_after attributes.entry) self.old (see_use it) self.new) }
        ensures stops { IfErr result (Refuses used self.old) }
    {
        self.expect_word(Word::Use)?;
        let path = self.read_path()?;
        let (from, names) = pair_with(path, self.read_after_path())?;
        Ok(Use {
            attributes,
            from,
            names,
        })
    }

    /// Reads `;`, perhaps with `as` and the local name before it.
    fn read_local_and_close(&mut self) -> ReadResult<Option<Id<'a>>>
        ensures reads { IfOk result (λ it. Reads (local ◂ Semicolon) self.old (option_map see_name it) self.new) }
        ensures stops { IfErr result (Refuses (local ◂ Semicolon) self.old) }
    {
        let local = self.read_local()?;
        self.expect(Kind::Semicolon)?;
        Ok(local)
    }

    /// Reads `use path;` or `use path as name;`.
    #[tactic(auto, unfolding(wit_grammar::specs::Rules::top_used))]
    pub fn read_toplevel_use(
        &mut self,
        attributes: Vec<Attribute<'a>>,
    ) -> ReadResult<ToplevelUse<'a>>
        ensures reads { IfOk result (λ it. Reads (top_use_after attributes.entry) self.old (see_top_use it) self.new) }
        ensures stops { IfErr result (Refuses top_used self.old) }
    {
        let span = self.read_word(Word::Use)?;
        let path = self.read_path()?;
        let (item, local) = pair_with(path, self.read_local_and_close())?;
        Ok(ToplevelUse {
            span,
            attributes,
            item,
            as_: local,
        })
    }
}
