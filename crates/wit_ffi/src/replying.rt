//! The reply to a text: the listing of its packages, or the line of their refusal.
ghost use Rattle.std.specs.Prelude.{◌≡◌, []};
ghost use Rattle.wit_ffi.specs.Reply.{IsReply};

use crate::status::{MADE, NO_MEMORY, NO_TEXT, REFUSED};
use std::alloc::Global;
use std::str;
use wit_tool::answer_text;

/// The bytes to write, and the status.
#[derive(Drop)]
pub(crate) struct Reply {
    pub(crate) status: u8,
    pub(crate) bytes: Vec<u8>,
}

/// A reply without bytes.
fn bare(alloc: Global, status: u8) -> Reply
    ensures status { result.status ≡ status }
    ensures bytes { result.bytes.items ≡ [] }
{
    Reply {
        status,
        bytes: Vec::new(alloc),
    }
}

/// The reply to bytes, which may be a text.
pub(crate) fn reply_to(alloc: Global, bytes: &[u8]) -> Reply
    ensures { IsReply bytes.now result.status result.bytes.items }
{
    let Ok(text) = str::from_utf8(bytes) else {
        return bare(alloc, NO_TEXT);
    };
    let mut output: Vec<u8> = Vec::new(alloc);
    match answer_text(alloc, text, &mut output) {
        Ok(Some(_)) => Reply {
            status: MADE,
            bytes: output,
        },
        Ok(None) => Reply {
            status: REFUSED,
            bytes: output,
        },
        Err(_) => bare(alloc, NO_MEMORY),
    }
}
