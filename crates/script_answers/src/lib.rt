//! How a script says what a browser answered: every number, length, label count and byte.
#![tactic(auto)]

use faults::CallFault;
use page::Shown;
use script_words::{Lent, Quoted};
use std::alloc::{AllocError, Global};
use std::fmt;

/// A call that did not come about, under the word for it: its number, and for a broken text where it breaks.
#[derive(Clone, Copy)]
pub struct Declined {
    word: &'static str,
    fault: CallFault,
}

impl fmt::Display for Declined {
    fn fmt<W: fmt::Write>(&self, f: &mut fmt::Formatter<W>) -> fmt::Result {
        let word = self.word;
        match self.fault {
            CallFault::Broken {
                place,
                text,
                kind: Some(kind),
                call,
            } => write!(
                f,
                "{word} 21 at place {place} of {text} of a {kind}, by {call}"
            ),
            CallFault::Broken {
                place,
                text,
                kind: None,
                call,
            } => write!(f, "{word} 21 at place {place} of {text}, by {call}"),
            fault => write!(f, "{word} {}", fault.number()),
        }
    }
}

/// A call that was refused.
pub fn refused(fault: CallFault) -> Declined {
    Declined {
        word: "refused",
        fault,
    }
}

/// An arrive or a follow that did not come about: refused by 33, and failed by any other number.
pub fn failed(fault: CallFault) -> Declined {
    match fault {
        CallFault::WrongTicket => refused(fault),
        _ => Declined {
            word: "failed",
            fault,
        },
    }
}

/// The answer of a call that answers nothing more than that it is done.
pub fn done(heap: Global, r: Result<(), CallFault>) -> Result<String, AllocError> {
    match r {
        Ok(()) => format!(in heap; "done"),
        Err(fault) => refused(fault).to_string(heap),
    }
}

/// What a call that writes into a buffer answers.
pub trait BufferAnswer {
    /// The answer, and the buffer after.
    fn told(self, heap: Global, buf: &[u8]) -> Result<String, AllocError>;
}

/// A call that writes to the front of the buffer answers the length.
impl BufferAnswer for usize {
    fn told(self, heap: Global, buf: &[u8]) -> Result<String, AllocError> {
        let buffer = Lent { buf, written: self };
        format!(in heap; "length {self}, buffer {buffer}")
    }
}

/// A call that writes a page answers its length and its labels, and blanks the rest of the buffer.
impl BufferAnswer for Shown {
    fn told(self, heap: Global, buf: &[u8]) -> Result<String, AllocError> {
        let Shown { len, labels } = self;
        let buffer = Quoted(buf);
        format!(in heap; "page of length {len}, labels {labels}, buffer {buffer}")
    }
}

/// The answer of a call that writes into a buffer, or the refusal, and the buffer after.
pub fn written<T: BufferAnswer>(
    heap: Global,
    r: Result<T, CallFault>,
    buf: &[u8],
) -> Result<String, AllocError> {
    match r {
        Ok(answer) => answer.told(heap, buf),
        Err(fault) => {
            let buffer = Lent { buf, written: 0 };
            format!(in heap; "{}, buffer {buffer}", refused(fault))
        }
    }
}
