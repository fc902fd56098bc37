//! Pieces that come many times, of the view `large`: `|N*PIECE|` means N times the piece. `$` in a piece
//! is the number of the time, from 0 on, `^` the next number, `~` how many times come after it, and `&`
//! how many come from it on.

use std::alloc::{AllocError, Global};

/// The number that a letter of a piece means, if it means one, at one of so many times.
fn number_of(letter: char, number: u32, times: u32) -> Option<u32> {
    match letter {
        '$' => Some(number),
        '^' => Some(number.wrapping_add(1)),
        '~' => Some(times.wrapping_sub(number).wrapping_sub(1)),
        '&' => Some(times.wrapping_sub(number)),
        _ => None,
    }
}

/// Puts a piece after a text, as it is at one of so many times.
fn push_piece(text: &mut String, piece: &str, number: u32, times: u32) -> Result<(), AllocError> {
    for letter in piece.chars() {
        match number_of(letter, number, times) {
            Some(meant) => write!(text, "{meant}")?,
            None => text.push(letter)?,
        }
    }
    Ok(())
}

/// Puts a piece after a text as often as its count in front of it says.
fn push_part(text: &mut String, count: &str, piece: &str) -> Result<(), AllocError> {
    let times = u32::from_str_radix(count, 10).unwrap_or(0);
    for number in 0..times {
        push_piece(text, piece, number, times)?;
    }
    Ok(())
}

/// The text with each piece as often as it is there.
pub fn unfold(alloc: Global, written: &str) -> Result<String, AllocError> {
    let mut text = String::new(alloc);
    for part in written.split('|') {
        match part.split_once('*') {
            Some((count, piece)) => push_part(&mut text, count, piece)?,
            None => text.push_str(part)?,
        }
    }
    Ok(text)
}
