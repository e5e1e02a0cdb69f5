//! One call on two handhelds at once, each over its own store and before its own shelf, and whether they answered alike.
#![tactic(auto)]

use browser::{OutwardTicket, Step};
use decks::Shelf;
use rounds::{Ask, Reply, work_both};
use script_answers::{failed, refused, written};
use script_handheld::Handheld;
use script_texts::DeskError;
use script_tickets::Pocket;
use script_words::{Command, buffer, size_of};
use std::alloc::{AllocError, Global};
use store::Store;

const USAGE: &str =
    "both SHELF SHELF and a call without its handheld and shelf, as press NAME or show SIZE";

/// What a number means where a call is declined, and whether its buffer is told.
#[derive(Clone, Copy)]
enum Sort {
    /// A refusal.
    Plain,
    /// An arrive or a follow, of which every number but 33 is a failure.
    Entering,
    /// A refusal, with the buffer as it was.
    Writing,
}

/// A buffer for each of the two.
#[derive(Drop)]
struct Buffers {
    first: Vec<u8>,
    second: Vec<u8>,
}

impl Buffers {
    /// Each of this size.
    fn new(heap: Global, size: usize) -> Result<Buffers, AllocError> {
        Ok(Buffers {
            first: buffer(heap, size)?,
            second: buffer(heap, size)?,
        })
    }

    /// None, for a call that is lent none.
    fn none(heap: Global) -> Buffers {
        Buffers {
            first: Vec::new(heap),
            second: Vec::new(heap),
        }
    }
}

/// A handheld, and the shelf that its calls come before.
#[derive(Drop)]
struct Side<'a, S, H> {
    handheld: &'a mut Handheld<S>,
    shelf: &'a H,
}

impl<'a, S: Store + Drop, H: Shelf> Side<'a, S, H> {
    /// A reply as a script says it. A ticket comes to lie with the handheld.
    fn told(&mut self, sort: Sort, reply: Reply, buf: &[u8]) -> Result<String, AllocError> {
        let heap = self.handheld.heap;
        match reply {
            Reply::Done => format!(in heap; "done"),
            Reply::Standing => self.handheld.stepped(Step::Standing),
            Reply::Outward(ticket) => self.handheld.stepped(Step::Outward(ticket)),
            Reply::Landed(ticket) => self.handheld.stepped(Step::Landed(ticket)),
            Reply::Wrote(len) => written(heap, Ok(len), buf),
            Reply::Page(shown) => written(heap, Ok(shown), buf),
            Reply::Declined(fault) => match sort {
                Sort::Plain => refused(fault).to_string(heap),
                Sort::Entering => failed(fault).to_string(heap),
                Sort::Writing => written::<usize>(heap, Err(fault), buf),
            },
        }
    }
}

/// The answer of both where it is one, else the two.
fn compared(heap: Global, first: String, second: String) -> Result<String, AllocError> {
    if first.as_str() == second.as_str() {
        format!(in heap; "alike: {first}")
    } else {
        format!(in heap; "apart: {first} | {second}")
    }
}

/// Two handhelds that are asked the same.
#[derive(Drop)]
struct Pair<'a, P, H, Q, K> {
    one: Side<'a, P, H>,
    two: Side<'a, Q, K>,
}

/// The same call for each of the two: a call holds a ticket or lent bytes, so it is made twice and not copied.
macro_rules! twice {
    ($ask:expr) => {
        ($ask, $ask)
    };
}

impl<'a, P: Store + Drop, H: Shelf, Q: Store + Drop, K: Shelf> Pair<'a, P, H, Q, K> {
    /// Works one call on each, and says what each replied.
    fn ask(
        &mut self,
        asked: (Ask<'_>, Ask<'_>),
        sort: Sort,
        mut lent: Buffers,
    ) -> Result<String, DeskError> {
        let Pair { one, two } = self;
        let (x, y) = work_both(
            &mut one.handheld.browser,
            one.shelf,
            asked.0,
            lent.first.as_mut_slice(),
            &mut two.handheld.browser,
            two.shelf,
            asked.1,
            lent.second.as_mut_slice(),
        );
        let first = one.told(sort, x, lent.first.as_slice());
        let second = two.told(sort, y, lent.second.as_slice());
        Ok(compared(one.handheld.heap, first?, second?)?)
    }

    /// A call that is lent no buffer.
    fn tell(&mut self, asked: (Ask<'_>, Ask<'_>), sort: Sort) -> Result<String, DeskError> {
        let lent = Buffers::none(self.one.handheld.heap);
        self.ask(asked, sort, lent)
    }

    /// The tickets of a kind that lie with the two.
    fn tickets<T: TryFrom<Pocket, Error = Pocket> + Into<Pocket>>(
        &mut self,
    ) -> Result<(T, T), DeskError> {
        let first: T = self.one.handheld.ticket()?;
        match self.two.handheld.ticket() {
            Ok(second) => Ok((first, second)),
            Err(error) => {
                self.one.handheld.hand_in(first.into());
                Err(error)
            }
        }
    }

    /// The target, asked by the outward tickets that lie with the two.
    fn target(&mut self, lent: Buffers) -> Result<String, DeskError> {
        let (first, second) = self.tickets::<OutwardTicket>()?;
        let asked = (Ask::Target(&first), Ask::Target(&second));
        let answer = self.ask(asked, Sort::Writing, lent);
        self.one.handheld.hand_in(first.into());
        self.two.handheld.hand_in(second.into());
        answer
    }

    /// A call that only reads, into a buffer of this size.
    fn read(&mut self, size: usize, command: Command<'_>) -> Result<String, DeskError> {
        let lent = Buffers::new(self.one.handheld.heap, size)?;
        let asked = match (command.verb, command.args) {
            (b"target", _) => return self.target(lent),
            (b"show", []) => twice!(Ask::Show),
            (b"address", []) => twice!(Ask::Address),
            (b"fill-in", [text, ..]) => twice!(Ask::Fill(text.as_slice())),
            (b"value-of", [name, ..]) => twice!(Ask::Value(name.as_slice())),
            _ => return Err(DeskError::Usage(USAGE)),
        };
        self.ask(asked, Sort::Writing, lent)
    }

    /// The call that a command asks of both.
    fn work(mut self, command: Command<'_>) -> Result<String, DeskError> {
        match (command.verb, command.args) {
            (b"start", [address]) => {
                self.tell(twice!(Ask::Start(address.as_slice())), Sort::Plain)
            }
            (b"press", [name]) => self.tell(twice!(Ask::Press(name.as_slice())), Sort::Plain),
            (b"type", [name, value]) => {
                let (name, value) = (name.as_slice(), value.as_slice());
                self.tell(twice!(Ask::TypeIn(name, value)), Sort::Plain)
            }
            (b"arrive", []) => {
                let (first, second) = self.tickets()?;
                self.tell((Ask::Arrive(first), Ask::Arrive(second)), Sort::Entering)
            }
            (b"give-up", []) => {
                let (first, second) = self.tickets()?;
                self.tell((Ask::GiveUp(first), Ask::GiveUp(second)), Sort::Entering)
            }
            (b"follow", []) => {
                let (first, second) = self.tickets()?;
                self.tell((Ask::Follow(first), Ask::Follow(second)), Sort::Entering)
            }
            (b"start" | b"press" | b"type", _) => Err(DeskError::Usage(USAGE)),
            (verb, [room, args @ ..]) => {
                let size = size_of(room.as_slice()).ok_or(DeskError::Usage(USAGE))?;
                self.read(size, Command { verb, args })
            }
            _ => Err(DeskError::Usage(USAGE)),
        }
    }
}

/// A call on both handhelds, each before its own shelf: any of the twelve but new.
pub fn both<'a, P: Store + Drop, H: Shelf, Q: Store + Drop, K: Shelf>(
    one: &'a mut Handheld<P>,
    shelf: &'a H,
    two: &'a mut Handheld<Q>,
    other: &'a K,
    command: Command<'_>,
) -> Result<String, DeskError> {
    let one = Side {
        handheld: one,
        shelf,
    };
    let two = Side {
        handheld: two,
        shelf: other,
    };
    let pair = Pair { one, two };
    pair.work(command)
}
