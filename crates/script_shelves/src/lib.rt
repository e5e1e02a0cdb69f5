//! The shelves that a script has made, of either kind, and the commands on them.
#![tactic(auto)]

use address::Address;
use decks::{BindingView, CardView, Shelf, TaskView};
use file_tables::{FileTables, frame_refusal};
use hex_text::bytes_of;
use loaded::Loaded;
use questions::ask;
pub use records::RecordShelf;
use script_texts::DeskError;
use script_words::Quoted;
pub use shelf_file::FileShelf;
use std::alloc::{AllocError, Global};
use std::collections::BTreeMap;
use tables::{Cause, Tables};

/// What a shelf lies in.
#[derive(Drop)]
pub enum Held {
    File(Vec<u8>),
    /// The records of a file, copied; or the cause for which the file's parts were refused.
    Records(Result<Loaded, Cause>),
}

const SHELF_USAGE: &str = "shelf NAME file|records HEX";

/// A task by its kind, its address text and how many assignments it has.
fn task(heap: Global, task: &Option<TaskView<'_>>) -> Result<String, AllocError> {
    match task {
        None => format!(in heap; "none"),
        Some(task) => {
            let kind = task.kind;
            let address = Quoted(task.address.bytes);
            let sets = task.assignments.count;
            format!(in heap; "{kind} {address} with {sets} assignments")
        }
    }
}

fn card(heap: Global, card: &Option<CardView<'_>>) -> Result<String, AllocError> {
    match card {
        None => format!(in heap; "no card"),
        Some(card) => {
            let id = Quoted(card.id.bytes);
            let mark = if card.newcontext { " newcontext" } else { "" };
            let place = card.body.place;
            let body = Quoted(card.body.bytes);
            format!(in heap; "card {id}{mark}, body {body} at {place}")
        }
    }
}

fn label(heap: Global, binding: &Option<BindingView<'_>>) -> Result<String, AllocError> {
    match binding {
        None => format!(in heap; "no binding"),
        Some(binding) => format!(in heap; "binding labelled {}", Quoted(binding.label.bytes)),
    }
}

/// What a shelf answers to an address and the name of a binding.
fn answer<S: Shelf>(
    heap: Global,
    shelf: &S,
    address: &Address,
    name: &[u8],
) -> Result<String, AllocError> {
    let found = ask(shelf, address.deck(), address.fragment(), name);
    if found.deck.is_none() {
        return format!(in heap; "no deck");
    }
    let card = card(heap, &found.card)?;
    let forward = task(heap, &found.forward)?;
    let backward = task(heap, &found.backward)?;
    let label = label(heap, &found.binding)?;
    format!(in heap; "{card}; forward {forward}; backward {backward}; {label}")
}

/// Opens the shelf that lies in a `Held`, of whichever kind, and does the work before it. A shelf whose file was
/// refused has no decks.
#[macro_export]
macro_rules! before_shelf {
    ($held:expr, $shelf:ident => $work:expr) => {
        match $held {
            $crate::Held::File(bytes) => {
                let $shelf = $crate::FileShelf::open(bytes.as_slice());
                $work
            }
            $crate::Held::Records(Ok(records)) => {
                let $shelf = $crate::RecordShelf::over(records.lend());
                $work
            }
            $crate::Held::Records(Err(_)) => {
                let $shelf = $crate::FileShelf::open(b"");
                $work
            }
        }
    };
}

impl Held {
    /// A shelf over the bytes of a file, or over records copied from it.
    pub fn new(heap: Global, kind: &[u8], bytes: Vec<u8>) -> Result<Held, DeskError> {
        match kind {
            b"file" => Ok(Held::File(bytes)),
            b"records" => match frame_refusal(bytes.as_slice()) {
                Some(cause) => Ok(Held::Records(Err(cause))),
                None => Ok(Held::Records(Ok(Loaded::copy(
                    heap,
                    &FileTables::of(bytes.as_slice()),
                )?))),
            },
            _ => Err(DeskError::Usage(SHELF_USAGE)),
        }
    }

    fn refusal(&self) -> Option<Cause> {
        match self {
            Held::File(bytes) => FileShelf::open(bytes.as_slice()).refusal(),
            Held::Records(Ok(records)) => RecordShelf::over(records.lend()).refusal(),
            Held::Records(Err(cause)) => Some(*cause),
        }
    }

    /// Whether the shelf is accepted, or the first cause by its number.
    pub fn verdict(&self, heap: Global) -> Result<String, AllocError> {
        match self.refusal() {
            None => format!(in heap; "accepted"),
            Some(cause) => format!(in heap; "refused {}", cause.number()),
        }
    }

    /// `ask SHELF ADDRESS NAME`: the card that the address means, its enter tasks, and the active
    /// binding of the name.
    pub fn ask(&self, heap: Global, address: &[u8], name: &[u8]) -> Result<String, AllocError> {
        match Address::parse(address) {
            Ok(address) => before_shelf!(self, shelf => answer(heap, &shelf, &address, name)),
            Err(fault) => format!(in heap; "refused {}", fault.number()),
        }
    }
}

/// The bytes of a word of hexadecimal digits.
fn hex_bytes(heap: Global, word: &[u8]) -> Result<Vec<u8>, DeskError> {
    let text = std::str::from_utf8(word).map_err(|_| DeskError::Usage(SHELF_USAGE))?;
    bytes_of(heap, text).map_err(|_| DeskError::Usage(SHELF_USAGE))
}

/// The shelves of a script, by their names.
#[derive(Drop)]
pub struct Shelves {
    heap: Global,
    all: BTreeMap<Vec<u8>, Held>,
}

impl Shelves {
    /// No shelf yet.
    pub fn new(heap: Global) -> Shelves {
        Shelves {
            heap,
            all: BTreeMap::new(heap),
        }
    }

    /// What the shelf of the name lies in.
    pub fn find(&self, name: &[u8]) -> Option<&Held> {
        self.all.get(name)
    }

    /// Makes a shelf of the bytes of a file, under a name, and says what became of it.
    pub fn make(&mut self, args: &[Vec<u8>]) -> Result<String, DeskError> {
        let [name, kind, hex] = args else {
            return Err(DeskError::Usage(SHELF_USAGE));
        };
        if self.all.contains_key(name) {
            return Err(DeskError::UsedName);
        }
        let bytes = hex_bytes(self.heap, hex.as_slice())?;
        let held = Held::new(self.heap, kind.as_slice(), bytes)?;
        let verdict = held.verdict(self.heap)?;
        let _ = self.all.insert(name.clone()?, held)?;
        Ok(verdict)
    }

    /// A question to the shelf of the name that comes first.
    pub fn ask(&self, args: &[Vec<u8>]) -> Result<String, DeskError> {
        let [name, address, binding] = args else {
            return Err(DeskError::Usage("ask SHELF ADDRESS NAME"));
        };
        match self.find(name.as_slice()) {
            Some(held) => Ok(held.ask(self.heap, address.as_slice(), binding.as_slice())?),
            None => Err(DeskError::UnknownName),
        }
    }
}
