//! Escapes: `\n`, `\r`, `\t`, `\\`, and `\u{..}` with the number of a letter in base 16.

use std::alloc::{AllocError, Global};

/// The letter that means another one after a `\`.
fn letter_of(letter: char) -> char {
    match letter {
        'n' => '\n',
        'r' => '\r',
        't' => '\t',
        other => other,
    }
}

/// The letter of a number in base 16.
fn numbered(digits: &str) -> char {
    let number = u32::from_str_radix(digits, 16).unwrap_or(0);
    char::from_u32(number).unwrap_or('?')
}

/// Puts what a text means that was after a `\` after another text.
fn push_meant(text: &mut String, piece: &str) -> Result<(), AllocError> {
    if let Some(digits) = piece.strip_prefix("u{") {
        let (digits, rest) = digits.split_once('}').unwrap_or((digits, ""));
        text.push(numbered(digits))?;
        return text.push_str(rest);
    }
    let mut letters = piece.chars();
    if let Some(letter) = letters.next() {
        text.push(letter_of(letter))?;
    }
    text.push_str(letters.as_str())
}

/// The text that is written with escapes.
pub fn unescape(alloc: Global, written: &str) -> Result<String, AllocError> {
    let mut text = String::new(alloc);
    let mut pieces = written.split('\\');
    if let Some(prefix) = pieces.next() {
        text.push_str(prefix)?;
    }
    let mut doubled = false;
    for piece in pieces {
        if doubled {
            doubled = false;
            text.push_str(piece)?;
        } else if piece.is_empty() {
            doubled = true;
            text.push('\\')?;
        } else {
            push_meant(&mut text, piece)?;
        }
    }
    Ok(text)
}
