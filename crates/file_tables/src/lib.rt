//! The tables of a shelf file, read in place: a pool of text, the tables of decks, cards, bindings,
//! tasks and assignments, and a trailer of 14 bytes.
#![tactic(auto)]

ghost use Rattle.std.specs.Prelude.{◌≡◌, ℕ, ◌+◌, ◌-◌, ◌*◌, ◌^◌, ◌<◌, ◌≤◌, length};
ghost use Rattle.file_tables.specs.File.{total, starts_of, size_ok, form_ok, sum_ok, frame, counts_in, tabled};

use file_records::{assignment_at, binding_at, card_at, counts_at, deck_at, task_at};
use tables::{
    AssignmentRecord, BindingRecord, CardRecord, Cause, Counts, DeckRecord, NO_ASSIGNMENT,
    NO_BINDING, NO_CARD, NO_DECK, NO_TASK, Tables, TaskRecord,
};

const TRAILER: usize = 14;

const MOST: usize = 60_000;

const FORM: u8 = 1;

const MARK: u8 = 0x57;

const DECK: usize = 14;

const CARD: usize = 16;

const BINDING: usize = 10;

const TASK: usize = 8;

const ASSIGNMENT: usize = 8;

/// Where each table of a file begins, and the trailer behind them.
#[derive(Clone, Copy)]
struct Starts {
    decks: usize,
    cards: usize,
    bindings: usize,
    tasks: usize,
    assignments: usize,
    trailer: usize,
}

/// Where the tables begin in a file with these counts.
fn starts_of(n: Counts) -> Starts
    requires { total n < 2 ^ 32 }
    ensures { result ≡ starts_of n }
{
    let decks = n.pool;
    let cards = decks + DECK * n.decks;
    let bindings = cards + CARD * n.cards;
    let tasks = bindings + BINDING * n.bindings;
    let assignments = tasks + TASK * n.tasks;
    let trailer = assignments + ASSIGNMENT * n.assignments;
    Starts {
        decks,
        cards,
        bindings,
        tasks,
        assignments,
        trailer,
    }
}

/// Whether a file has 14 to 60,000 bytes.
fn size_ok(bytes: &[u8]) -> bool
    ensures { result ≡ size_ok bytes.now }
{
    TRAILER <= bytes.len() && bytes.len() <= MOST
}

/// Whether a file ends with the form and the mark.
fn form_ok(bytes: &[u8]) -> bool
    requires { 14 ≤ length bytes.now }
    ensures { result ≡ form_ok bytes.now }
{
    bytes[bytes.len() - 1] == MARK && bytes[bytes.len() - 2] == FORM
}

/// Whether the parts of a file add up to its length.
fn sum_ok(bytes: &[u8]) -> bool
    requires { 14 ≤ length bytes.now }
    ensures { result ≡ sum_ok bytes.now }
{
    let starts = starts_of(counts_at(bytes, bytes.len() - TRAILER));
    starts.trailer + TRAILER == bytes.len()
}

/// The first cause for which a file's parts are refused, if any. (A `Result` with `?` would be
/// turned back into this `Option` at once.)
pub fn frame_refusal(bytes: &[u8]) -> Option<Cause>
    ensures { result ≡ frame bytes.now }
{
    if !size_ok(bytes) {
        Some(Cause::Size)
    } else if !form_ok(bytes) {
        Some(Cause::Form)
    } else if !sum_ok(bytes) {
        Some(Cause::Sum)
    } else {
        None
    }
}

/// The counts of a file; one whose parts are refused has none.
fn counts_in(bytes: &[u8]) -> Counts
    ensures { result ≡ counts_in bytes.now }
{
    match frame_refusal(bytes) {
        None => counts_at(bytes, bytes.len() - TRAILER),
        Some(_) => Counts {
            pool: 0,
            decks: 0,
            cards: 0,
            bindings: 0,
            tasks: 0,
            assignments: 0,
        },
    }
}

/// The tables of a file. Each record is read when it is asked for.
#[derive(Clone, Copy)]
pub struct FileTables<'a> {
    pub bytes: &'a [u8],
    counts: Counts,
    ghost counted: { counts ≡ counts_in bytes.now },
    ghost inside: { total counts ≤ length bytes.now },
    ghost most: { total counts ≤ 60000 },
}

impl<'a> FileTables<'a> {
    /// The tables of a file; one whose parts are refused has empty ones.
    pub fn of(bytes: &'a [u8]) -> FileTables<'a>
        ensures { result.bytes.now ≡ bytes.now }
    {
        FileTables {
            bytes,
            counts: counts_in(bytes),
        }
    }
}

impl Tables for FileTables<'_> {
    ghost tables = { λ s. tabled s.bytes.now };

    ghost memory = { λ s. s.bytes.now };

    fn pool(&self) -> &[u8] {
        &self.bytes[0..self.counts.pool]
    }

    fn counts(&self) -> Counts {
        self.counts
    }

    fn deck(&self, i: usize) -> DeckRecord {
        if i >= self.counts.decks {
            return NO_DECK;
        }
        deck_at(self.bytes, starts_of(self.counts).decks + DECK * i)
    }

    fn card(&self, i: usize) -> CardRecord {
        if i >= self.counts.cards {
            return NO_CARD;
        }
        card_at(self.bytes, starts_of(self.counts).cards + CARD * i)
    }

    fn binding(&self, i: usize) -> BindingRecord {
        if i >= self.counts.bindings {
            return NO_BINDING;
        }
        binding_at(self.bytes, starts_of(self.counts).bindings + BINDING * i)
    }

    fn task(&self, i: usize) -> TaskRecord {
        if i >= self.counts.tasks {
            return NO_TASK;
        }
        task_at(self.bytes, starts_of(self.counts).tasks + TASK * i)
    }

    fn assignment(&self, i: usize) -> AssignmentRecord {
        if i >= self.counts.assignments {
            return NO_ASSIGNMENT;
        }
        assignment_at(
            self.bytes,
            starts_of(self.counts).assignments + ASSIGNMENT * i,
        )
    }
}
