//! The commands on texts and addresses, and why a command is not worked.
#![tactic(auto)]

use script_words::{Command, Lent, buffer, size_of};
use std::alloc::{AllocError, Global};
use text::{Mode, TextFault, Values, room_for_escaping};

mod addresses;
mod error;

pub use addresses::on_address;
pub use error::DeskError;

/// A size in a script: a number, or the word `room` for the room that suffices.
pub fn size_or_room(word: &[u8], room: Result<usize, TextFault>) -> Option<usize> {
    match (word, room) {
        (b"room", Ok(n)) => Some(n),
        _ => size_of(word),
    }
}

/// The answer of a call that writes a text: the length or the refusal, and the buffer after.
fn written(heap: Global, r: Result<usize, TextFault>, buf: &[u8]) -> Result<String, AllocError> {
    let buffer = Lent {
        buf,
        written: r.unwrap_or(0),
    };
    match r {
        Ok(len) => format!(in heap; "length {len}, buffer {buffer}"),
        Err(TextFault::Broken(place)) => {
            format!(in heap; "refused 21 at place {place}, buffer {buffer}")
        }
        Err(fault) => format!(in heap; "refused {}, buffer {buffer}", fault.number()),
    }
}

pub fn fill<V: Values>(
    heap: Global,
    values: &V,
    mode: Mode,
    size: usize,
    text: &[u8],
) -> Result<String, AllocError> {
    let mut buf = buffer(heap, size)?;
    let r = text::fill(text, values, mode, buf.as_mut_slice());
    written(heap, r, buf.as_slice())
}

/// The commands `escape SIZE BYTES` and `unescape SIZE BYTES`.
pub fn convert(heap: Global, command: Command<'_>) -> Result<String, DeskError> {
    let [size, value] = command.args else {
        return Err(DeskError::Usage("escape|unescape SIZE BYTES"));
    };
    let Some(size) = size_or_room(size.as_slice(), room_for_escaping(value.as_slice())) else {
        return Err(DeskError::Usage("escape|unescape SIZE BYTES"));
    };
    let mut buf = buffer(heap, size)?;
    let r = match command.verb {
        b"escape" => text::escape(value.as_slice(), buf.as_mut_slice()),
        b"unescape" => text::unescape(value.as_slice(), buf.as_mut_slice()),
        _ => return Err(DeskError::UnknownCommand),
    };
    Ok(written(heap, r, buf.as_slice())?)
}
