//! The commands on one store.
use script_texts::{DeskError, fill, size_or_room};
use script_words::{Command, Quoted};
use std::alloc::{AllocError, Global};
use store::Store;
use text::{Mode, Values, room_for_filling};
use variables::Variables;

fn mode_of(word: &[u8]) -> Option<Mode> {
    match word {
        b"plain" => Some(Mode::Plain),
        b"address" => Some(Mode::Address),
        _ => None,
    }
}

fn set<S: Store>(
    heap: Global,
    store: &mut S,
    name: &[u8],
    value: &[u8],
) -> Result<String, AllocError> {
    match store.set(name, value) {
        Ok(()) => format!(in heap; "done"),
        Err(refusal) => format!(in heap; "refused {}", refusal.number()),
    }
}

/// The value of a name, with its length.
fn value<S: Store>(heap: Global, store: &S, name: &[u8]) -> Result<String, AllocError> {
    let value = store.value(name);
    format!(in heap; "length {}, value {}", value.len(), Quoted(value))
}

fn limits<S: Store>(heap: Global, store: &S) -> Result<String, AllocError> {
    let names = store.most_names();
    let bytes = store.most_bytes();
    format!(in heap; "at most {names} names and {bytes} bytes")
}

/// `fill STORE plain|address SIZE TEXT`, from the mode on.
fn fill_from<S: Store>(heap: Global, store: &S, args: &[Vec<u8>]) -> Result<String, DeskError> {
    let [mode, size, text] = args else {
        return Err(DeskError::Usage(FILL_USAGE));
    };
    let room = room_for_filling(text.as_slice());
    let (Some(mode), Some(size)) = (
        mode_of(mode.as_slice()),
        size_or_room(size.as_slice(), room),
    ) else {
        return Err(DeskError::Usage(FILL_USAGE));
    };
    Ok(fill(heap, &Variables { store }, mode, size, text.as_slice())?)
}

const FILL_USAGE: &str = "fill STORE plain|address SIZE TEXT";

/// A command on one store, whose name is left out.
pub(crate) fn on_store<S: Store>(
    heap: Global,
    store: &mut S,
    command: Command<'_>,
) -> Result<String, DeskError> {
    match (command.verb, command.args) {
        (b"set", [name, to]) => Ok(set(heap, store, name.as_slice(), to.as_slice())?),
        (b"set", _) => Err(DeskError::Usage("set STORE NAME VALUE")),
        (b"value", [name]) => Ok(value(heap, &*store, name.as_slice())?),
        (b"value", _) => Err(DeskError::Usage("value STORE NAME")),
        (b"fill", args) => fill_from(heap, &*store, args),
        (b"clear", []) => {
            store.clear();
            Ok(format!(in heap; "done")?)
        }
        (b"count", []) => Ok(store.count().to_string(heap)?),
        (b"bytes", []) => Ok(store.bytes().to_string(heap)?),
        (b"limits", []) => Ok(limits(heap, &*store)?),
        _ => Err(DeskError::Usage("clear|count|bytes|limits STORE")),
    }
}
