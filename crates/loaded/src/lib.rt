//! Any tables copied into records of their own, so that a record shelf can hold what a file holds.
#![tactic(auto)]

ghost use Rattle.std.specs.Prelude.{◌≡◌, IfOk};
ghost use Rattle.records.specs.Lent.{tabled};
ghost use Rattle.loaded.specs.Copies.{copied};

use records::RecordTables;
use std::alloc::{AllocError, Global};
use tables::{AssignmentRecord, BindingRecord, CardRecord, DeckRecord, Tables, TaskRecord};

/// A pool and five tables, owned.
#[derive(Drop)]
pub struct Loaded {
    pool: Vec<u8>,
    decks: Vec<DeckRecord>,
    cards: Vec<CardRecord>,
    bindings: Vec<BindingRecord>,
    tasks: Vec<TaskRecord>,
    assignments: Vec<AssignmentRecord>,
}

/// The pool, copied.
fn copy_pool<T: Tables>(heap: Global, tables: &T) -> Result<Vec<u8>, AllocError>
    ensures { IfOk result (λ v. v.items ≡ (T.Tables.tables tables.now).pool) }
{
    tables.pool().to_vec(heap)
}

impl Loaded {
    /// The same tables, copied.
    pub fn copy<T: Tables>(heap: Global, tables: &T) -> Result<Loaded, AllocError>
        ensures { IfOk result (λ l. copied l ≡ T.Tables.tables tables.now) }
    {
        let pool = copy_pool(heap, tables)?;
        let n = tables.counts();
        let decks = (0..n.decks).map(|i| tables.deck(i)).collect(heap)?;
        let cards = (0..n.cards).map(|i| tables.card(i)).collect(heap)?;
        let bindings = (0..n.bindings).map(|i| tables.binding(i)).collect(heap)?;
        let tasks = (0..n.tasks).map(|i| tables.task(i)).collect(heap)?;
        let assignments = (0..n.assignments)
            .map(|i| tables.assignment(i))
            .collect(heap)?;
        Ok(Loaded {
            pool,
            decks,
            cards,
            bindings,
            tasks,
            assignments,
        })
    }

    /// The tables, lent.
    pub fn lend(&self) -> RecordTables<'_>
        ensures { tabled result ≡ copied self.now }
    {
        RecordTables {
            pool: self.pool.as_slice(),
            decks: self.decks.as_slice(),
            cards: self.cards.as_slice(),
            bindings: self.bindings.as_slice(),
            tasks: self.tasks.as_slice(),
            assignments: self.assignments.as_slice(),
        }
    }
}
