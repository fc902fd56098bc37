//! Where versions end.
ghost use Rattle.std.specs.Prelude.{◌≡◌, ◌+◌, ◌-◌, ◌<◌, ◌≤◌, false, length, slice_index, IfOk, IfErr};
ghost use Rattle.std.specs.Char.{is_ascii_digit};
ghost use Rattle.wit_lex.specs.Starts.{IsRun};
ghost use Rattle.wit_lex.specs.VersionLexis.{version_to};
ghost use Rattle.wit_lex.specs.VersionEnds.{IsDotNumber, IsLongest, IsMarked, IsNoDotNumber, IsNoNumbers, IsNumbers};

use crate::scan::{digits_end, is_word_byte};

/// The place after a `.`; else the place where none is.
fn dot_end(bytes: &[u8], from: usize) -> Result<usize, usize>
    requires { from ≤ length bytes.now }
    ensures found { IfOk result (λ end. (end ≡ from + 1) × (end ≤ length bytes.now)) }
    ensures dot { IfOk result (λ _. slice_index bytes.now from ≡ 46) }
    ensures none { IfErr result (λ at. at ≡ from) }
    ensures missing { IfErr result (λ _. from < length bytes.now → slice_index bytes.now from ≡ 46 → ⊥) }
{
    if from < bytes.len() && bytes[from] == b'.' {
        Ok(from + 1)
    } else {
        Err(from)
    }
}

/// The end of a number; else the place where none begins.
fn number_end(bytes: &[u8], from: usize) -> Result<usize, usize>
    requires { from ≤ length bytes.now }
    ensures after { IfOk result (λ end. (from < end) × (end ≤ length bytes.now)) }
    ensures ascii { IfOk result (λ end. slice_index bytes.now (end - 1) < 128) }
    ensures run { IfOk result (IsRun is_ascii_digit bytes.now from) }
    ensures none { IfErr result (λ at. at ≡ from) }
    ensures missing { IfErr result (λ at. at < length bytes.now → is_ascii_digit (slice_index bytes.now at) ≡ false) }
{
    let end = digits_end(bytes, from);
    if from < end { Ok(end) } else { Err(from) }
}

/// The end of a `.` and a number; else the place where the `.`, or the number after it, is wanted
/// and is not.
fn dot_number_end(bytes: &[u8], from: usize) -> Result<usize, usize>
    requires { from ≤ length bytes.now }
    ensures after { IfOk result (λ end. (from < end) × (end ≤ length bytes.now)) }
    ensures ascii { IfOk result (λ end. slice_index bytes.now (end - 1) < 128) }
    ensures found { IfOk result (IsDotNumber bytes.now from) }
    ensures none { IfErr result (λ at. (from ≤ at) × (at ≤ length bytes.now)) }
    ensures missing { IfErr result (IsNoDotNumber bytes.now from) }
{
    let number = dot_end(bytes, from)?;
    number_end(bytes, number)
}

/// The end of the longest run of letters, digits, `-`, and those `.` that one of them follows.
fn run_end(bytes: &[u8], from: usize) -> usize
    requires { from ≤ length bytes.now }
    ensures after { from ≤ result }
    ensures within { result ≤ length bytes.now }
    ensures ascii { from < result → slice_index bytes.now (result - 1) < 128 }
    ensures longest { IsLongest bytes.now from result }
{
    let len = bytes.len();
    let mut at = from;
    while at < len {
        if is_word_byte(bytes[at]) {
            at += 1;
            continue;
        }
        if bytes[at] != b'.' || len - at < 2 || !is_word_byte(bytes[at + 1]) {
            return at;
        }
        at += 2;
    }
    at
}

/// The end of a mark and the run after it, or the place itself where no mark or no run is.
fn marked_end(bytes: &[u8], from: usize, mark: u8) -> usize
    requires within { from ≤ length bytes.now }
    requires some { 0 < from }
    requires ascii { slice_index bytes.now (from - 1) < 128 }
    ensures after { from ≤ result }
    ensures within { result ≤ length bytes.now }
    ensures ascii { slice_index bytes.now (result - 1) < 128 }
    ensures marked { IsMarked mark bytes.now from result }
{
    if from == bytes.len() || bytes[from] != mark {
        return from;
    }
    let end = run_end(bytes, from + 1);
    if from + 1 < end { end } else { from }
}

/// The end of the second and third number of a version whose first number ends at a place; else
/// the place where a `.` or a number is wanted and is not.
fn numbers_end(bytes: &[u8], from: usize) -> Result<usize, usize>
    requires { from ≤ length bytes.now }
    ensures after { IfOk result (λ end. (from < end) × (end ≤ length bytes.now)) }
    ensures ascii { IfOk result (λ end. slice_index bytes.now (end - 1) < 128) }
    ensures found { IfOk result (IsNumbers bytes.now from) }
    ensures none { IfErr result (λ at. (from ≤ at) × (at ≤ length bytes.now)) }
    ensures missing { IfErr result (IsNoNumbers bytes.now from) }
{
    let minor = dot_number_end(bytes, from)?;
    dot_number_end(bytes, minor)
}

/// The end of a version whose first number ends at a place: three numbers joined by `.`, then
/// perhaps `-` and a run, then perhaps `+` and a run; else the place where a `.` or a number is
/// wanted and is not.
pub fn version_end(bytes: &[u8], from: usize) -> Result<usize, usize>
    requires { from ≤ length bytes.now }
    ensures after { IfOk result (λ end. (from < end) × (end ≤ length bytes.now)) }
    ensures ascii { IfOk result (λ end. slice_index bytes.now (end - 1) < 128) }
    ensures none { IfErr result (λ at. (from ≤ at) × (at ≤ length bytes.now)) }
    ensures lexed { result ≡ version_to bytes.now from }
{
    let numbers = numbers_end(bytes, from)?;
    let pre = marked_end(bytes, numbers, b'-');
    Ok(marked_end(bytes, pre, b'+'))
}
