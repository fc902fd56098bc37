//! The resolver for callers in C and Rust: from a text to the listing or the JSON of its packages, or why it is
//! refused, in the caller's buffers.
#![tactic(auto)]

mod answering;
mod checking;
mod laying;
pub mod refusal;
mod replying;
mod status;

ghost use Rattle.std.specs.Prelude.{◌≡◌, ℕ, List, length};
ghost use Rattle.wit_ffi.specs.Room.{laid_over};
ghost use Rattle.wit_ffi.specs.Answer.{IsPartsAnswer, IsTextAnswer};
ghost use Rattle.wit_ffi.specs.Checked.{IsChecked};
ghost use Rattle.wit_ffi.specs.Fields.{ArePlainFields};
ghost use Rattle.wit_ffi.specs.Reply.{IsReply};
ghost use Rattle.wit_outcome.specs.declared.plain.Plain.{Plain};

use crate::answering::{Answer, answer_bytes, answer_parts};
use crate::checking::{Checked, check};
use crate::laying::lay;
use crate::refusal::fields_of;
use crate::replying::{Reply, reply_to};
pub use refusal::Refusal;
use std::alloc::Global;

/// Writes the reply to a text over the beginning of `output`, as far as it fits, and its whole length to
/// `len`. The rest of `output` stays as it was.
///
/// Answers 0 for the listing of the packages that the text's sources make, 1 for the line of their
/// refusal, 2 where the text is not UTF-8, and 3 where an allocation failed outside the
/// resolver. For 2 and 3 nothing is written.
#[unsafe(no_mangle)]
pub extern "C" fn wit_ffi_answer(
    alloc: Global,
    text: &[u8],
    output: &mut [u8],
    len: &mut usize,
) -> u8
    ensures { (whole : List ℕ) × IsReply text.now result whole × (output.new ≡ laid_over output.old whole) × (len.new ≡ length whole) }
{
    let Reply { status, bytes } = reply_to(alloc, text);
    let whole = bytes.as_slice();
    *len = whole.len();
    lay(output, whole);
    status
}

/// Gives the refusal of a text in plain fields, its path over the beginning of `path` and its words over
/// that of `message`, each as far as it fits. The rest of both stays as it was, and `refusal` has the
/// whole lengths.
///
/// Answers 1 for a refusal, 0 where the text's sources make packages, 2 where the text is not UTF-8,
/// and 3 where an allocation failed outside the resolver. For 0, 2 and 3 nothing is written, and each
/// field is 0.
#[unsafe(no_mangle)]
pub extern "C" fn wit_ffi_check(
    alloc: Global,
    text: &[u8],
    path: &mut [u8],
    message: &mut [u8],
    refusal: &mut Refusal,
) -> u8
    ensures { (whole : Plain) × IsChecked text.now result whole × ArePlainFields whole path.old path.new message.old message.new refusal.new }
{
    let Checked { status, plain } = check(alloc, text);
    lay(path, plain.path.as_str().as_bytes());
    lay(message, plain.message.as_str().as_bytes());
    *refusal = fields_of(&plain);
    status
}

/// Writes the JSON of the group that a text's sources make, or of their refusal, over the beginning of `output`,
/// as far as it fits, and its whole length to `len`. The rest of `output` stays as it was.
///
/// Answers 0 for a group, 1 for a refusal, 2 if the text is not UTF-8, and 3 if an allocation failed
/// outside the resolver. For 2 and 3 nothing is written to `output`, and `len` is 0.
#[unsafe(no_mangle)]
pub extern "C" fn wit_ffi_package(
    alloc: Global,
    text: &[u8],
    output: &mut [u8],
    len: &mut usize,
) -> u8
    ensures { (json : List ℕ) × IsTextAnswer text.now result json × (output.new ≡ laid_over output.old json) × (len.new ≡ length json) }
{
    let Answer { status, json } = answer_bytes(alloc, text);
    *len = json.len();
    lay(output, json.as_slice());
    status
}

/// As `wit_ffi_package`, of sources that come apart: `bytes` are the path and the text of each, one after the
/// other, and `lens` the length of each of these. So no line of a source starts another one.
///
/// Answers 2 also if the lengths are odd in number, or are not those of the bytes together.
#[unsafe(no_mangle)]
pub extern "C" fn wit_ffi_package_of(
    alloc: Global,
    bytes: &[u8],
    lens: &[usize],
    output: &mut [u8],
    len: &mut usize,
) -> u8
    ensures { (json : List ℕ) × IsPartsAnswer bytes.now lens.now result json × (output.new ≡ laid_over output.old json) × (len.new ≡ length json) }
{
    let Answer { status, json } = answer_parts(alloc, bytes, lens);
    *len = json.len();
    lay(output, json.as_slice());
    status
}

/// The version of this library: major * 65536 + minor * 256 + patch of 0.1.0.
#[unsafe(no_mangle)]
pub extern "C" fn wit_ffi_version() -> u32
    ensures { result ≡ 256 }
{
    256
}
