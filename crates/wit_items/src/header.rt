//! Headers: which package they name, and their docs.
ghost use Rattle.std.specs.Prelude.{◌≡◌, ◌↔◌, ◌++◌, List, IsTrue, IfOk, string_bytes};
ghost use Rattle.std.specs.Option.{option_map, option_to_list};
ghost use Rattle.semver.specs.Identifiers.{parts_of};
ghost use Rattle.wit_tree.specs.declared.tree.PackageName.{PackageName as Header};
ghost use Rattle.wit_syntax.specs.Address.{package_of};
ghost use Rattle.wit_syntax.specs.Broken.{IsSamePackage, headers};
ghost use Rattle.wit_syntax.specs.Words.{mismatch};
ghost use Rattle.wit_arena.specs.Whole.{first_docs};
ghost use Rattle.wit_first.specs.First.{Finds};
ghost use Rattle.wit_first.specs.HeaderFaults.{have_docs, is_documented, second_docs_fault};

use semver::Version;
use std::alloc::{AllocError, Global};
use wit_notes::{docs, package_name};
use wit_refusals::refusal::refuse;
use wit_tree::ParseResult;
use wit_tree::tree::{self, PackageFile};
use wit_types::Docs;

/// The words for a header with docs after one that has docs.
const SECOND_DOCS: &str = "found doc comments on multiple 'package' items";

/// Whether two versions are the same, to their builds.
fn is_same_version(a: &Version, b: &Version) -> bool
    ensures { IsTrue result ↔ (parts_of a.now ≡ parts_of b.now) }
{
    a.major == b.major
        && a.minor == b.minor
        && a.patch == b.patch
        && a.pre.as_str() == b.pre.as_str()
        && a.build.as_str() == b.build.as_str()
}

/// Whether both versions are the same, or both are absent.
fn is_same_release(a: &Option<Version>, b: &Option<Version>) -> bool
    ensures { IsTrue result ↔ (option_map parts_of a.now ≡ option_map parts_of b.now) }
{
    match (a, b) {
        (Some(a), Some(b)) => is_same_version(a, b),
        (None, None) => true,
        _ => false,
    }
}

/// Whether two headers name one package.
pub fn is_same(a: &tree::PackageName<'_>, b: &tree::PackageName<'_>) -> bool
    ensures { IsTrue result ↔ IsSamePackage a.now b.now }
{
    a.namespace.name == b.namespace.name
        && a.name.name == b.name.name
        && is_same_release(&a.version, &b.version)
}

/// The words for a header that names another package.
pub fn mismatch(
    alloc: Global,
    current: &tree::PackageName<'_>,
    previous: &tree::PackageName<'_>,
) -> Result<String, AllocError>
    ensures { IfOk result (λ words. string_bytes words ≡ mismatch (package_of current.now) (package_of previous.now)) }
{
    let current = package_name(alloc, current)?;
    let previous = package_name(alloc, previous)?;
    format!(in alloc;
        "package identifier `{current}` does not match previous package name of `{previous}`"
    )
}

/// Whether a header has docs.
fn is_documented(header: &tree::PackageName<'_>) -> bool
    ensures { result ≡ is_documented header.now }
{
    !header.docs.docs.is_empty()
}

/// Whether headers have docs, the last of which is this one, if it is there, and the others have docs
/// or not.
pub fn have_docs(documented: bool, current: &Option<tree::PackageName<'_>>) -> bool
    ensures { (hs : List Header) → documented ≡ have_docs hs → result ≡ have_docs (hs ++ option_to_list current.now) }
{
    if documented {
        return true;
    }
    match current {
        Some(own) => is_documented(own),
        None => false,
    }
}

/// Refuses a header with docs after others, where one of these has docs.
pub fn check_docs(
    alloc: Global,
    documented: bool,
    current: &Option<tree::PackageName<'_>>,
) -> ParseResult<()>
    ensures { (hs : List Header) → documented ≡ have_docs hs → Finds (second_docs_fault hs current.now) result }
{
    if documented {
        if let Some(own) = current {
            if is_documented(own) {
                return Err(refuse(alloc, 2, own.docs.span, SECOND_DOCS));
            }
        }
    }
    Ok(())
}

/// The docs of the first of the files' headers that has some.
pub fn package_docs(alloc: Global, files: &[PackageFile<'_>]) -> Result<Docs, AllocError>
    ensures { IfOk result (λ d. d ≡ first_docs (headers files.now)) }
{
    for file in files {
        if let Some(header) = &file.package_id {
            if is_documented(header) {
                return docs(alloc, &header.docs);
            }
        }
    }
    Ok(Docs::default())
}
