//! A shelf that holds records in five lent tables, with a lent pool of text.
#![tactic(auto)]

ghost use Rattle.std.specs.Prelude.{◌≡◌};
ghost use Rattle.decks.specs.Allowances.{Allowed};
ghost use Rattle.tables.specs.Meaning.{numbers, places_of};
ghost use Rattle.tables.specs.Verdict.{judgement};
ghost use Rattle.tables.proofs.Laws.{under-kept};
ghost use Rattle.records.specs.Lent.{tabled, decks_in};

use decks::{AssignmentView, BindingView, CardView, DeckView, Shelf, TaskView};
use judge::judgement_of;
use tables::{
    AssignmentRecord, BindingRecord, CardRecord, Cause, Counts, DeckRecord, NO_ASSIGNMENT,
    NO_BINDING, NO_CARD, NO_DECK, NO_TASK, Tables, TaskRecord,
};
use views::{assignment_view, binding_view, card_view, listed_deck, task_view};

/// A pool and five tables, each in a lent slice.
#[derive(Clone, Copy)]
pub struct RecordTables<'a> {
    pub pool: &'a [u8],
    pub decks: &'a [DeckRecord],
    pub cards: &'a [CardRecord],
    pub bindings: &'a [BindingRecord],
    pub tasks: &'a [TaskRecord],
    pub assignments: &'a [AssignmentRecord],
}

impl Tables for RecordTables<'_> {
    ghost tables = { tabled };

    ghost memory = { λ s. s.pool.now };

    fn pool(&self) -> &[u8] {
        self.pool
    }

    fn counts(&self) -> Counts {
        Counts {
            pool: self.pool.len(),
            decks: self.decks.len(),
            cards: self.cards.len(),
            bindings: self.bindings.len(),
            tasks: self.tasks.len(),
            assignments: self.assignments.len(),
        }
    }

    fn deck(&self, i: usize) -> DeckRecord {
        self.decks.get(i).copied().unwrap_or(NO_DECK)
    }

    fn card(&self, i: usize) -> CardRecord {
        self.cards.get(i).copied().unwrap_or(NO_CARD)
    }

    fn binding(&self, i: usize) -> BindingRecord {
        self.bindings.get(i).copied().unwrap_or(NO_BINDING)
    }

    fn task(&self, i: usize) -> TaskRecord {
        self.tasks.get(i).copied().unwrap_or(NO_TASK)
    }

    fn assignment(&self, i: usize) -> AssignmentRecord {
        self.assignments.get(i).copied().unwrap_or(NO_ASSIGNMENT)
    }
}

/// A shelf over lent records. It is always made; where the records are refused, it has no decks.
#[derive(Clone, Copy)]
pub struct RecordShelf<'a> {
    tables: RecordTables<'a>,
    verdict: Option<Cause>,
    ghost judged: { verdict ≡ judgement (tabled tables) },
}

impl<'a> RecordShelf<'a> {
    /// The shelf over lent records, which are judged here, once. Its decks keep every allowance.
    pub fn over(tables: RecordTables<'a>) -> RecordShelf<'a>
        ensures lent { result.tables ≡ tables.entry }
        ensures allowed { Allowed (decks_in tables.entry) }
    {
        let verdict = judgement_of(&tables);
        RecordShelf { tables, verdict }
    }

    /// The cause for which the records are refused, if any: the first one.
    pub fn refusal(&self) -> Option<Cause>
        ensures { result ≡ judgement (tabled self.now.tables) }
    {
        self.verdict
    }
}

impl Shelf for RecordShelf<'_> {
    ghost decks = { λ s. decks_in s.tables };

    ghost parts = { λ s. numbers (tabled s.tables) };

    ghost memory = { λ s. s.tables.pool.now };

    ghost places = { λ s. places_of (tabled s.tables) };

    ghost lawful = { λ s. under-kept (judgement (tabled s.tables)) (tabled s.tables) (λ e. e) };

    fn deck(&self, k: usize) -> Option<DeckView<'_>> {
        listed_deck(&self.tables, self.verdict, k)
    }

    fn card(&self, c: usize) -> CardView<'_> {
        card_view(&self.tables, c)
    }

    fn binding(&self, b: usize) -> BindingView<'_> {
        binding_view(&self.tables, b)
    }

    fn task(&self, t: u16) -> TaskView<'_> {
        task_view(&self.tables, t)
    }

    fn assignment(&self, a: usize) -> AssignmentView<'_> {
        assignment_view(&self.tables, a)
    }
}
