//! Faults: why a text, a task or a call is turned down. Each layer adds what it knows and hands on the one below
//! whole: a broken text tells its place, the task which text of which kind of task, and the call which call it was.
//! Every other fault is told by its number alone.
#![tactic(auto)]

ghost use Rattle.std.specs.Prelude.{◌≡◌};
ghost use Rattle.machine.specs.Answer.{reason_number};
ghost use Rattle.faults.specs.Layers.{placed_in, in_task, in_call, in_answer, of_pair};
ghost use Rattle.faults.specs.Told.{reason, NothingForgotten};
ghost use Rattle.faults.specs.declared.TaskFault.TheVariants as tasks;
ghost use Rattle.faults.specs.declared.CallFault.TheVariants as calls;

use address::Unlawful;
use decks::Kind;
use store::Refusal;
use text::TextFault;

mod words;

/// Which text is broken: a card's body, the host's own, the address text of a task, or the name text or value text of
/// its assignment k, counted from 0.
#[derive(Clone, Copy)]
pub enum Which {
    Body,
    Host,
    Address,
    Name(u8),
    Value(u8),
}

/// The calls that fill texts.
#[derive(Clone, Copy)]
pub enum Caller {
    Press,
    Follow,
    Show,
    Fill,
}

/// Where a text stands in a task: which text, and of which kind of task.
#[derive(Clone, Copy)]
pub struct Spot {
    pub text: Which,
    pub kind: Kind,
}

/// A text that a call fills for itself, which belongs to no task.
#[derive(Clone, Copy)]
pub struct Asked {
    pub text: Which,
    pub call: Caller,
}

/// Why a task is not taken.
#[derive(Clone, Copy)]
pub enum TaskFault {
    /// 21: a dollar sign begins nothing.
    Broken {
        place: usize,
        text: Which,
        kind: Kind,
    },
    /// 22: a name result has over 16 bytes, or a value result over 64.
    TooLong,
    /// 23: the address is unlawful.
    Unlawful,
    /// 24: the variables would exceed a limit.
    NoRoom,
}

/// Why a call is turned down.
#[derive(Clone, Copy)]
pub enum CallFault {
    /// 11: no active binding has the name.
    NoBinding,
    /// 12: a name that cannot be stored, or a value of over 64 bytes.
    Unstorable,
    /// 21: a dollar sign begins nothing, at a place of a text, of a kind of task, if it is a task's, and in which call.
    Broken {
        place: usize,
        text: Which,
        kind: Option<Kind>,
        call: Caller,
    },
    /// 22: a name result of over 16 bytes, a value result of over 64, or a text of over 1,024.
    TooLong,
    /// 23: an unlawful address.
    Unlawful,
    /// 24: the variables would exceed a limit.
    NoRoom,
    /// 26: the shelf has no such deck.
    NoDeck,
    /// 31: no card was entered yet.
    NoCard,
    /// 32: an errand is under way.
    Busy,
    /// 33: the ticket has another number, or is not outward or landed as the errand is.
    WrongTicket,
    /// 34: the current deck has left the shelf.
    DeckGone,
    /// 35: the buffer is too short.
    ShortBuffer,
}

/// A fault with what the layer above knows of it.
#[derive(Clone, Copy)]
pub struct Within<C, E> {
    pub context: C,
    pub below: E,
}

/// The answer, its fault set into its context.
pub fn placed<C: Copy, T, E>(context: C, answer: Result<T, E>) -> Result<T, Within<C, E>>
    ensures { result ≡ placed_in context answer }
{
    match answer {
        Ok(x) => Ok(x),
        Err(below) => Err(Within { context, below }),
    }
}

impl From<Within<Spot, TextFault>> for TaskFault {
    ghost from_gives = { λ x r. r ≡ in_task x.context x.below };

    fn from(x: Within<Spot, TextFault>) -> TaskFault {
        let Spot { text, kind } = x.context;
        match x.below {
            TextFault::Broken(place) => TaskFault::Broken { place, text, kind },
            TextFault::TooLong | TextFault::ShortBuffer => TaskFault::TooLong,
        }
    }
}

impl From<Unlawful> for TaskFault {
    ghost from_gives = { λ x r. r ≡ tasks.Unlawful };

    fn from(x: Unlawful) -> TaskFault {
        TaskFault::Unlawful
    }
}

impl From<Within<Caller, TaskFault>> for CallFault {
    ghost from_gives = { λ x r. r ≡ in_call x.context x.below };

    fn from(x: Within<Caller, TaskFault>) -> CallFault {
        let call = x.context;
        match x.below {
            TaskFault::Broken { place, text, kind } => CallFault::Broken {
                place,
                text,
                kind: Some(kind),
                call,
            },
            TaskFault::TooLong => CallFault::TooLong,
            TaskFault::Unlawful => CallFault::Unlawful,
            TaskFault::NoRoom => CallFault::NoRoom,
        }
    }
}

impl From<Within<Asked, TextFault>> for CallFault {
    ghost from_gives = { λ x r. r ≡ in_answer x.context x.below };

    fn from(x: Within<Asked, TextFault>) -> CallFault {
        let Asked { text, call } = x.context;
        match x.below {
            TextFault::Broken(place) => CallFault::Broken {
                place,
                text,
                kind: None,
                call,
            },
            TextFault::TooLong => CallFault::TooLong,
            TextFault::ShortBuffer => CallFault::ShortBuffer,
        }
    }
}

impl From<Unlawful> for CallFault {
    ghost from_gives = { λ x r. r ≡ calls.Unlawful };

    fn from(x: Unlawful) -> CallFault {
        CallFault::Unlawful
    }
}

impl From<Refusal> for CallFault {
    ghost from_gives = { λ x r. r ≡ of_pair x };

    fn from(x: Refusal) -> CallFault {
        match x {
            Refusal::Unstorable => CallFault::Unstorable,
            Refusal::NoRoom => CallFault::NoRoom,
        }
    }
}

impl CallFault {
    /// The fault by its number.
    #[tactic(auto, using(crate::proofs::Back::nothing_forgotten))]
    pub fn number(self) -> u8
        ensures number { result ≡ reason_number (reason self) }
        ensures whole { NothingForgotten }
    {
        match self {
            CallFault::NoBinding => 11,
            CallFault::Unstorable => 12,
            CallFault::Broken { .. } => 21,
            CallFault::TooLong => 22,
            CallFault::Unlawful => 23,
            CallFault::NoRoom => 24,
            CallFault::NoDeck => 26,
            CallFault::NoCard => 31,
            CallFault::Busy => 32,
            CallFault::WrongTicket => 33,
            CallFault::DeckGone => 34,
            CallFault::ShortBuffer => 35,
        }
    }
}
