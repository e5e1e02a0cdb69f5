//! The four handhelds of a script: A and B over packed runs, C and D over slot tables.
#![tactic(auto)]

use decks::Shelf;
use packed::{MOST_MEMORY, PackedRun};
use script_both::both;
use script_commands::{work as work_alone, work_on};
use script_handheld::Handheld;
use script_shelves::{Held, Shelves, before_shelf};
use script_texts::DeskError;
use script_tickets::Pocket;
use script_words::{Command, byte_of, size_of};
use slots::{Slot, SlotTable};
use std::alloc::{AllocError, Global};
use store::Store;

/// How many slots a slot table uses at most.
const MOST_SLOTS: usize = 64;

const BOTH_USAGE: &str = "both SHELF SHELF CALL, with the call's own words";

const MAKE_USAGE: &str = "handheld A|B|C|D SIZE NUMBER, with 4,160 bytes or 64 slots at most";

/// A store over memory that is lent for as long as the program runs.
trait LentStore: Store + Drop {
    /// Over memory of this size, in what the store is made of.
    fn lend(heap: Global, size: usize) -> Result<Self, AllocError>;
}

impl LentStore for PackedRun<'static> {
    fn lend(heap: Global, size: usize) -> Result<PackedRun<'static>, AllocError> {
        let all = Box::leak(Box::new(heap, [0; MOST_MEMORY])?);
        let used = size.min(MOST_MEMORY);
        Ok(PackedRun::new(&mut all[0..used]))
    }
}

impl LentStore for SlotTable<'static> {
    fn lend(heap: Global, size: usize) -> Result<SlotTable<'static>, AllocError> {
        let all = Box::leak(Box::new(heap, [Slot::empty(); MOST_SLOTS])?);
        let used = size.min(MOST_SLOTS);
        Ok(SlotTable::new(&mut all[0..used]))
    }
}

/// A call on two handhelds at once; the second one's shelf is opened here.
fn both_before<H: Shelf>(
    one: &mut Handheld<PackedRun<'static>>,
    shelf: &H,
    two: &mut Handheld<SlotTable<'static>>,
    held: &Held,
    command: Command<'_>,
) -> Result<String, DeskError> {
    before_shelf!(held, other => both(one, shelf, two, &other, command))
}

/// A command on one handheld; the shelf is found by its name.
fn work<S: Store + Drop>(
    handheld: &mut Handheld<S>,
    shelves: &Shelves,
    command: Command<'_>,
) -> Result<String, DeskError> {
    let verb = command.verb;
    if !matches!(verb, b"press" | b"arrive" | b"follow" | b"show") {
        return work_alone(handheld, command);
    }
    let [shelf, args @ ..] = command.args else {
        return Err(DeskError::Usage("a shelf's name comes after the handheld's"));
    };
    let command = Command { verb, args };
    match shelves.find(shelf.as_slice()) {
        Some(held) => before_shelf!(held, shelf => work_on(handheld, &shelf, command)),
        None => Err(DeskError::UnknownName),
    }
}

/// The handhelds by name.
#[derive(Clone, Copy)]
enum Name {
    A,
    B,
    C,
    D,
}

impl TryFrom<&[u8]> for Name {
    type Error = DeskError;

    fn try_from(word: &[u8]) -> Result<Name, DeskError> {
        match word {
            b"A" => Ok(Name::A),
            b"B" => Ok(Name::B),
            b"C" => Ok(Name::C),
            b"D" => Ok(Name::D),
            _ => Err(DeskError::UnknownName),
        }
    }
}

/// Does the work on the handheld of a name, over whichever store it lies.
macro_rules! on_handheld {
    ($rounds:ident, $name:expr, $handheld:ident => $work:expr) => {
        match $name {
            Name::A => {
                let $handheld = &mut $rounds.a;
                $work
            }
            Name::B => {
                let $handheld = &mut $rounds.b;
                $work
            }
            Name::C => {
                let $handheld = &mut $rounds.c;
                $work
            }
            Name::D => {
                let $handheld = &mut $rounds.d;
                $work
            }
        }
    };
}

/// The handhelds of a script. They end by `close`, which leaves no ticket.
pub struct Rounds {
    heap: Global,
    a: Handheld<PackedRun<'static>>,
    b: Handheld<PackedRun<'static>>,
    c: Handheld<SlotTable<'static>>,
    d: Handheld<SlotTable<'static>>,
}

impl Rounds {
    /// Four handhelds of number 0, whose stores have no room yet.
    pub fn new(heap: Global) -> Rounds {
        Rounds {
            heap,
            a: Handheld::new(heap, 0, PackedRun::new(&mut [])),
            b: Handheld::new(heap, 0, PackedRun::new(&mut [])),
            c: Handheld::new(heap, 0, SlotTable::new(&mut [])),
            d: Handheld::new(heap, 0, SlotTable::new(&mut [])),
        }
    }

    /// Ends with no ticket left.
    pub fn close(self) {
        let Rounds {
            heap: _,
            a,
            b,
            c,
            d,
        } = self;
        a.close();
        b.close();
        c.close();
        d.close();
    }

    /// `handheld NAME SIZE NUMBER`: makes it new over memory of that size.
    pub fn make(&mut self, args: &[Vec<u8>]) -> Result<String, DeskError> {
        let [name, size, number] = args else {
            return Err(DeskError::Usage(MAKE_USAGE));
        };
        let (Some(size), Some(number)) = (size_of(size.as_slice()), byte_of(number.as_slice()))
        else {
            return Err(DeskError::Usage(MAKE_USAGE));
        };
        let heap = self.heap;
        on_handheld!(self, Name::try_from(name.as_slice())?, handheld => {
            handheld.remake(number, LentStore::lend(heap, size)?)
        });
        Ok(format!(in heap; "done")?)
    }

    /// `hand FROM TO`: the ticket that lies with one handheld comes to lie with another.
    pub fn hand(&mut self, args: &[Vec<u8>]) -> Result<String, DeskError> {
        let [from, to] = args else {
            return Err(DeskError::Usage("hand HANDHELD HANDHELD"));
        };
        let from = Name::try_from(from.as_slice())?;
        let to = Name::try_from(to.as_slice())?;
        match on_handheld!(self, from, handheld => handheld.hand_out()) {
            Pocket::Empty => Err(DeskError::NoTicket),
            ticket => {
                on_handheld!(self, to, handheld => handheld.hand_in(ticket));
                Ok(format!(in self.heap; "done")?)
            }
        }
    }

    /// A command on the handheld of the name that comes first.
    pub fn work(&mut self, shelves: &Shelves, command: Command<'_>) -> Result<String, DeskError> {
        let [name, args @ ..] = command.args else {
            return Err(DeskError::Usage("a handheld's name comes first"));
        };
        let command = Command {
            verb: command.verb,
            args,
        };
        on_handheld!(self, Name::try_from(name.as_slice())?, handheld => {
            work(handheld, shelves, command)
        })
    }

    /// `both SHELF SHELF CALL ..`: a call on A before the first shelf and on C before the second, at once.
    pub fn work_both(&mut self, shelves: &Shelves, args: &[Vec<u8>]) -> Result<String, DeskError> {
        let [first, second, verb, args @ ..] = args else {
            return Err(DeskError::Usage(BOTH_USAGE));
        };
        let Some(held) = shelves.find(first.as_slice()) else {
            return Err(DeskError::UnknownName);
        };
        let Some(other) = shelves.find(second.as_slice()) else {
            return Err(DeskError::UnknownName);
        };
        let command = Command {
            verb: verb.as_slice(),
            args,
        };
        before_shelf!(held, shelf => {
            both_before(&mut self.a, &shelf, &mut self.c, other, command)
        })
    }
}
