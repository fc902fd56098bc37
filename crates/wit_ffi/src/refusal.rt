//! A refusal in plain fields.
ghost use Rattle.std.specs.Prelude.{◌≡◌};
ghost use Rattle.wit_ffi.specs.Fields.{fields_of};

use wit_outcome::Plain;

/// A refusal: the number of its rule; whether it has a place; if so, where that is in the text of the
/// source at the path, in bytes; and the lengths of the path and of its words.
#[repr(C)]
#[derive(Clone, Copy)]
pub struct Refusal {
    pub rule: u8,
    pub placed: bool,
    pub start: u32,
    pub end: u32,
    pub path_len: usize,
    pub message_len: usize,
}

/// The fields of a refusal, with the lengths of its path and its message.
pub(crate) fn fields_of(plain: &Plain) -> Refusal
    ensures { result ≡ fields_of plain.now }
{
    Refusal {
        rule: plain.rule,
        placed: plain.placed,
        start: plain.start,
        end: plain.end,
        path_len: plain.path.as_str().len(),
        message_len: plain.message.as_str().len(),
    }
}
