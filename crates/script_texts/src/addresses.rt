//! The commands on addresses.
use crate::error::DeskError;
use address::{Address, Unlawful};
use script_words::{Command, Quoted};
use std::alloc::{AllocError, Global};
use std::fmt;

/// An address by its parts.
#[derive(Drop)]
struct Parts(Address);

impl fmt::Display for Parts {
    fn fmt<W: fmt::Write>(&self, f: &mut fmt::Formatter<W>) -> fmt::Result {
        let host = Quoted(self.0.host());
        let path = Quoted(self.0.path());
        let fragment = Quoted(self.0.fragment());
        let deck = Quoted(self.0.deck());
        write!(
            f,
            "host {host}, path {path}, fragment {fragment}, deck {deck}"
        )
    }
}

/// An address by its bytes.
#[derive(Drop)]
struct Whole(Address);

impl fmt::Display for Whole {
    fn fmt<W: fmt::Write>(&self, f: &mut fmt::Formatter<W>) -> fmt::Result {
        write!(f, "{}", Quoted(self.0.as_bytes()))
    }
}

/// What a reference means on an address, if both are lawful.
fn resolved(current: &[u8], reference: &[u8]) -> Result<Address, Unlawful> {
    resolve::resolve(&Address::parse(current)?, reference)
}

/// What is said of a lawful address, or the refusal.
fn told<D: fmt::Display + Drop>(
    heap: Global,
    r: Result<D, Unlawful>,
) -> Result<String, AllocError> {
    match r {
        Ok(said) => format!(in heap; "{said}"),
        Err(fault) => format!(in heap; "refused {}", fault.number()),
    }
}

/// The commands `lawful ADDRESS`, `parts ADDRESS` and `resolve ADDRESS REFERENCE`.
pub fn on_address(heap: Global, command: Command<'_>) -> Result<String, DeskError> {
    let answer = match (command.verb, command.args) {
        (b"lawful", [bytes]) => told(heap, Address::parse(bytes.as_slice()).map(|_| "lawful"))?,
        (b"parts", [bytes]) => told(heap, Address::parse(bytes.as_slice()).map(Parts))?,
        (b"resolve", [current, reference]) => {
            let target = resolved(current.as_slice(), reference.as_slice());
            told(heap, target.map(Whole))?
        }
        (b"resolve", _) => return Err(DeskError::Usage("resolve ADDRESS REFERENCE")),
        _ => return Err(DeskError::Usage("lawful|parts ADDRESS")),
    };
    Ok(answer)
}
