//! The records of a shelf file, read from its bytes. Numbers are unsigned, big end first. Each
//! function takes the bytes and a place, as the layout tells where in a record each field lies.
#![tactic(auto)]

ghost use Rattle.std.specs.Prelude.{◌≡◌, ℕ, ◌+◌, ◌<◌, ◌≤◌, length};
ghost use Rattle.file_records.specs.Layout.{number, ref_in, run_in, deck_in, card_in, binding_in, task_in, assignment_in, counts_at};

use decks::Run;
use tables::{AssignmentRecord, BindingRecord, CardRecord, Counts, DeckRecord, Ref, TaskRecord};

/// The number in the two bytes at `i`.
pub fn number_at(bytes: &[u8], i: usize) -> u16
    requires { i + 2 ≤ length bytes.now }
    ensures { result ≡ number bytes.now i }
{
    u16::from_be_bytes([bytes[i], bytes[i + 1]])
}

/// The ref in the 4 bytes at `i`.
pub fn ref_at(bytes: &[u8], i: usize) -> Ref
    requires { i + 4 ≤ length bytes.now }
    ensures { result ≡ ref_in bytes.now i }
{
    Ref {
        start: number_at(bytes, i),
        len: number_at(bytes, i + 2),
    }
}

/// The run in the 3 bytes at `i`.
pub fn run_at(bytes: &[u8], i: usize) -> Run
    requires { i + 3 ≤ length bytes.now }
    ensures { result ≡ run_in bytes.now i }
{
    Run {
        first: number_at(bytes, i),
        count: bytes[i + 2],
    }
}

/// The deck in the 14 bytes at `i`.
pub fn deck_at(bytes: &[u8], i: usize) -> DeckRecord
    requires { i + 14 ≤ length bytes.now }
    ensures { result ≡ deck_in bytes.now i }
{
    DeckRecord {
        address: ref_at(bytes, i),
        cards: run_at(bytes, i + 4),
        forward: number_at(bytes, i + 7),
        backward: number_at(bytes, i + 9),
        bindings: run_at(bytes, i + 11),
    }
}

/// The card in the 16 bytes at `i`.
pub fn card_at(bytes: &[u8], i: usize) -> CardRecord
    requires { i + 16 ≤ length bytes.now }
    ensures { result ≡ card_in bytes.now i }
{
    CardRecord {
        id: ref_at(bytes, i),
        mark: bytes[i + 4],
        body: ref_at(bytes, i + 5),
        forward: number_at(bytes, i + 9),
        backward: number_at(bytes, i + 11),
        bindings: run_at(bytes, i + 13),
    }
}

/// The binding in the 10 bytes at `i`.
pub fn binding_at(bytes: &[u8], i: usize) -> BindingRecord
    requires { i + 10 ≤ length bytes.now }
    ensures { result ≡ binding_in bytes.now i }
{
    BindingRecord {
        name: ref_at(bytes, i),
        label: ref_at(bytes, i + 4),
        task: number_at(bytes, i + 8),
    }
}

/// The task in the 8 bytes at `i`.
pub fn task_at(bytes: &[u8], i: usize) -> TaskRecord
    requires { i + 8 ≤ length bytes.now }
    ensures { result ≡ task_in bytes.now i }
{
    TaskRecord {
        kind: bytes[i],
        address: ref_at(bytes, i + 1),
        assignments: run_at(bytes, i + 5),
    }
}

/// The assignment in the 8 bytes at `i`.
pub fn assignment_at(bytes: &[u8], i: usize) -> AssignmentRecord
    requires { i + 8 ≤ length bytes.now }
    ensures { result ≡ assignment_in bytes.now i }
{
    AssignmentRecord {
        name: ref_at(bytes, i),
        value: ref_at(bytes, i + 4),
    }
}

/// The six counts in the 12 bytes at `i`.
pub fn counts_at(bytes: &[u8], i: usize) -> Counts
    requires { i + 12 ≤ length bytes.now }
    ensures value { result ≡ counts_at bytes.now i }
    ensures few { result.pool + result.decks + result.cards + result.bindings + result.tasks + result.assignments < 400000 }
{
    Counts {
        pool: number_at(bytes, i) as usize,
        decks: number_at(bytes, i + 2) as usize,
        cards: number_at(bytes, i + 4) as usize,
        bindings: number_at(bytes, i + 6) as usize,
        tasks: number_at(bytes, i + 8) as usize,
        assignments: number_at(bytes, i + 10) as usize,
    }
}
