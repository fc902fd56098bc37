//! Letters, digits and the runs of them.
ghost use Rattle.std.specs.Prelude.{◌≡◌, ◌+◌, ◌-◌, ◌<◌, ◌≤◌, true, length, slice_index, slice_range};
ghost use Rattle.std.specs.Char.{is_ascii_digit, is_ascii_lowercase};
ghost use Rattle.wit_lex.specs.Words.{unescaped};
ghost use Rattle.wit_lex.specs.Starts.{IsRun, is_in_word, is_letter as is_letter_byte, width_of};

/// A letter.
pub fn is_letter(c: u8) -> bool
    ensures letter { result ≡ is_letter_byte c }
    ensures ascii { result ≡ true → c < 128 }
    ensures some { result ≡ true → 0 < c }
{
    (c >= b'a' && c <= b'z') || (c >= b'A' && c <= b'Z')
}

/// A digit.
pub fn is_digit(c: u8) -> bool
    ensures digit { result ≡ is_ascii_digit c }
    ensures ascii { result ≡ true → c < 128 }
    ensures some { result ≡ true → 0 < c }
{
    c >= b'0' && c <= b'9'
}

/// A letter in lower case, as most are.
fn is_small_letter(c: u8) -> bool
    ensures small { result ≡ is_ascii_lowercase c }
    ensures ascii { result ≡ true → c < 128 }
{
    c >= b'a' && c <= b'z'
}

/// A letter, a digit or `-`.
pub fn is_word_byte(c: u8) -> bool
    ensures word { result ≡ is_in_word c }
    ensures ascii { result ≡ true → c < 128 }
{
    is_letter(c) || is_digit(c) || c == b'-'
}

/// The end of the run of letters, digits and `-` from a place on.
pub fn word_end(bytes: &[u8], from: usize) -> usize
    requires { from ≤ length bytes.now }
    ensures after { from ≤ result }
    ensures within { result ≤ length bytes.now }
    ensures run { IsRun is_in_word bytes.now from result }
    ensures ascii { from < result → slice_index bytes.now (result - 1) < 128 }
{
    let len = bytes.len();
    let mut at = from;
    while at < len {
        let c = bytes[at];
        if is_small_letter(c) {
            at += 1;
            continue;
        }
        if !is_word_byte(c) {
            return at;
        }
        at += 1;
    }
    at
}

/// The end of the digits from a place on.
pub fn digits_end(bytes: &[u8], from: usize) -> usize
    requires { from ≤ length bytes.now }
    ensures after { from ≤ result }
    ensures within { result ≤ length bytes.now }
    ensures run { IsRun is_ascii_digit bytes.now from result }
    ensures ascii { from < result → slice_index bytes.now (result - 1) < 128 }
{
    let len = bytes.len();
    let mut at = from;
    while at < len {
        if !is_digit(bytes[at]) {
            return at;
        }
        at += 1;
    }
    at
}

/// How many bytes the character has whose first one is `c`.
pub fn width(c: u8) -> usize
    ensures width { result ≡ width_of c }
    ensures some { 0 < result }
    ensures most { result ≤ 4 }
{
    if c < 0xc0 {
        1
    } else if c < 0xe0 {
        2
    } else if c < 0xf0 {
        3
    } else {
        4
    }
}

/// A part of a text that begins with an ASCII character, and ends before or after one, or with the text.
pub fn cut(text: &str, start: usize, end: usize) -> &str
    requires order { start < end }
    requires within { end ≤ length text.now }
    requires first { slice_index text.now start < 128 }
    requires last { end < length text.now → 128 ≤ slice_index text.now end → slice_index text.now (end - 1) < 128 }
    ensures { result.now ≡ slice_range text.now start end }
{
    &text[start..end]
}

/// A name without a prefix `%`.
pub fn without_escape(text: &str) -> &str
    ensures { result.now ≡ unescaped text.now }
{
    let bytes = text.as_bytes();
    if bytes.len() == 0 {
        return text;
    }
    if bytes[0] == b'%' { &text[1..] } else { text }
}
