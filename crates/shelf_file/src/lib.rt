//! A shelf that reads a file in place: the bytes are judged once, and then answer every question.
#![tactic(auto)]

ghost use Rattle.std.specs.Prelude.{◌≡◌, [], OnSome};
ghost use Rattle.decks.specs.Allowances.{Allowed};
ghost use Rattle.tables.specs.Meaning.{numbers, places_of, listed};
ghost use Rattle.tables.specs.Verdict.{judgement, under};
ghost use Rattle.tables.proofs.Laws.{under-kept};
ghost use Rattle.file_tables.specs.File.{tabled, verdict, decks_in};
ghost use Rattle.file_tables.proofs.Frames.{verdict-passes};

use decks::{AssignmentView, BindingView, CardView, DeckView, Shelf, TaskView};
use file_tables::{FileTables, frame_refusal};
use judge::judgement_of;
use tables::Cause;
use views::{assignment_view, binding_view, card_view, listed_deck, task_view};

/// The first cause for which a file is refused, if any: its parts come before its records. (With
/// `or_else` the closure would need a clause of its own, and this is shorter.)
fn verdict_on(tables: &FileTables) -> Option<Cause>
    ensures { result ≡ verdict tables.now.bytes.now }
{
    match frame_refusal(tables.bytes) {
        Some(cause) => Some(cause),
        None => judgement_of(tables),
    }
}

/// A shelf over the bytes of a file. It is always made; where the file is refused, it has no decks.
#[derive(Clone, Copy)]
pub struct FileShelf<'a> {
    tables: FileTables<'a>,
    cause: Option<Cause>,
    ghost judged: { cause ≡ verdict tables.bytes.now },
}

impl<'a> FileShelf<'a> {
    /// The shelf over a file, which is judged here, once. Its decks keep every allowance and are
    /// those of its tables, as a shelf over the same records has them; a file that is refused has
    /// none.
    pub fn open(bytes: &'a [u8]) -> FileShelf<'a>
        ensures file { result.tables.bytes.now ≡ bytes.now }
        ensures allowed { Allowed (decks_in bytes.now) }
        ensures tables { decks_in bytes.now ≡ under (judgement (tabled bytes.now)) (listed (tabled bytes.now)) }
        ensures refused { OnSome (verdict bytes.now) (decks_in bytes.now ≡ []) }
    {
        let tables = FileTables::of(bytes);
        let cause = verdict_on(&tables);
        FileShelf { tables, cause }
    }

    /// The cause for which the file is refused, if any: the first one.
    pub fn refusal(&self) -> Option<Cause>
        ensures { result ≡ verdict self.now.tables.bytes.now }
    {
        self.cause
    }
}

impl Shelf for FileShelf<'_> {
    ghost decks = { λ s. decks_in s.tables.bytes.now };

    ghost parts = { λ s. numbers (tabled s.tables.bytes.now) };

    ghost memory = { λ s. s.tables.bytes.now };

    ghost places = { λ s. places_of (tabled s.tables.bytes.now) };

    ghost lawful = { λ s. under-kept (verdict s.tables.bytes.now) (tabled s.tables.bytes.now) (verdict-passes s.tables.bytes.now) };

    fn deck(&self, k: usize) -> Option<DeckView<'_>> {
        listed_deck(&self.tables, self.cause, k)
    }

    fn card(&self, c: usize) -> CardView<'_> {
        card_view(&self.tables, c)
    }

    fn binding(&self, b: usize) -> BindingView<'_> {
        binding_view(&self.tables, b)
    }

    fn task(&self, t: u16) -> TaskView<'_> {
        task_view(&self.tables, t)
    }

    fn assignment(&self, a: usize) -> AssignmentView<'_> {
        assignment_view(&self.tables, a)
    }
}
