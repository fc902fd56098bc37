//! Arenas, and the ids of their values.

use crate::answers::push_answer;
use std::alloc::{AllocError, Global};
use tulfjak::package::{Arena, TypePlace};

/// Numbers that the ids of types name.
type Numbers = Arena<u8, TypePlace>;

/// The arena of 6 and 5.
fn made(alloc: Global) -> Result<Numbers, AllocError> {
    let mut numbers: Numbers = Arena::new(alloc);
    numbers.reserve(2)?;
    let first = numbers.alloc(7)?;
    *numbers.get_mut(first) = 6;
    numbers.add(5)?;
    Ok(numbers)
}

/// Two of them, one after the other.
fn joined(alloc: Global) -> Result<Numbers, AllocError> {
    let mut numbers = made(alloc)?;
    let mut others = made(alloc)?;
    numbers.append(&mut others)?;
    Ok(numbers.shrunk())
}

/// Adds the ids after those of an arena.
fn push_next(numbers: &Numbers, text: &mut String) -> Result<(), AllocError> {
    let next = numbers.next_id();
    push_answer(text, "Arena::next_id", &(next, numbers.find(next)))?;
    let after = (numbers.id_after(1), numbers.id_after(usize::MAX));
    push_answer(text, "Arena::id_after", &after)
}

/// Adds values by their ids.
fn push_found(numbers: &Numbers, text: &mut String) -> Result<(), AllocError> {
    for (id, number) in numbers.entries() {
        push_answer(text, "Arena::entries", &(id, number, numbers.find(id)))?;
    }
    if numbers.len() == 2 {
        let last = numbers.id_at(1);
        push_answer(text, "Arena::get", &(last.index(), numbers.get(last)))?;
    }
    Ok(())
}

/// Adds what a copy of an arena is.
fn push_copied(numbers: &Numbers, text: &mut String) -> Result<(), AllocError> {
    let is_same = numbers.clone()? == *numbers;
    let answers = (is_same, numbers.is_empty(), numbers.iter().count());
    push_answer(text, "Arena::clone", &answers)
}

/// Adds what calls on an arena return.
fn push_numbers(numbers: &Numbers, text: &mut String) -> Result<(), AllocError> {
    push_next(numbers, text)?;
    push_found(numbers, text)?;
    push_copied(numbers, text)
}

/// Adds what calls on arenas return.
pub fn push_arenas(alloc: Global, text: &mut String) -> Result<(), AllocError> {
    push_numbers(&made(alloc)?, text)?;
    push_answer(text, "Arena::into_values", &joined(alloc)?.into_values())
}
