//! The view `narrow`: the listing of a source. Before it is each length at which a writer fails, where the
//! run does not answer that, or does not leave the beginning of the listing in the writer.

use crate::cuts::{whole_map, written};
use anyhow::Result;
use std::alloc::Global;
use std::io;
use std::io::Write;
use wit_listing::RunFault;
use wit_text::SourceMap;
use wit_tool::run;

/// A writer that takes `room` bytes one by one, and then fails.
#[derive(Drop)]
struct Narrow {
    in_use: Vec<u8>,
    room: usize,
}

impl Write for Narrow {
    fn write(&mut self, buf: &[u8]) -> io::Result<usize> {
        if buf.is_empty() {
            return Ok(0);
        }
        if self.room == 0 {
            return Err(io::Error::from(io::ErrorKind::Other));
        }
        match self.in_use.push(buf[0]) {
            Ok(()) => {
                self.room -= 1;
                Ok(1)
            }
            Err(_) => Ok(0),
        }
    }

    fn flush(&mut self) -> io::Result<()> {
        Ok(())
    }
}

/// Whether a run ended as it has to: with a listing where the writer has room for all of it.
fn is_ended<T: Drop>(is_whole: bool, ran: Result<Option<T>, RunFault>) -> bool {
    match ran {
        Ok(Some(_)) => is_whole,
        Ok(None) => false,
        Err(fault) => !is_whole && fault == RunFault::Output,
    }
}

/// Whether a run of a source leaves what there is room for in a writer, and answers that.
fn is_left(alloc: Global, source: &str, room: usize, whole: &[u8]) -> Result<bool> {
    let in_use = Vec::new(alloc);
    let mut out = Narrow { in_use, room };
    let ran = run(alloc, whole_map(alloc, source)?, &mut out);
    let is_cut = whole.get(..room) == Some(out.in_use.as_slice());
    Ok(is_cut && is_ended(room == whole.len(), ran))
}

/// Puts each length of which that does not hold, and the listing of a source, after a text.
fn push_narrow(alloc: Global, text: &mut String, source: &str) -> Result<()> {
    let whole = written(alloc, source)?;
    for room in 0..=whole.len() {
        if !is_left(alloc, source, room, whole.as_bytes())? {
            write!(text, "at {room}\n")?;
        }
    }
    Ok(text.push_str(whole.as_str())?)
}

/// What runs of each source leave in writers that fail.
pub fn narrow_view(alloc: Global, map: &SourceMap) -> Result<String> {
    let mut text = String::new(alloc);
    for source in map.sources() {
        push_narrow(alloc, &mut text, source.contents.as_str())?;
    }
    Ok(text)
}
