//! What a shelf hands out, made from the records of any tables. Each view has fields of its own, so
//! a trait over the five would share no line.
#![tactic(auto)]

ghost use Rattle.std.specs.Prelude.{◌≡◌, IfSome};
ghost use Rattle.std.specs.List.{slice_get};
ghost use Rattle.decks.specs.Views.{Lies, opt, deck_of, card_of, binding_of, task_of, assignment_of};
ghost use Rattle.tables.specs.Meaning.{numbers, places_of, listed, deck_no, card_no, binding_no, task_no, assignment_no};
ghost use Rattle.tables.specs.Verdict.{under};
ghost use Rattle.views.specs.Fields.{DeckFrom, CardFrom, BindingFrom, TaskFrom, AssignmentFrom};

use decks::{AssignmentView, BindingView, CardView, DeckView, TaskView};
use tables::{
    AssignmentRecord, BindingRecord, CardRecord, Cause, DeckRecord, Tables, TaskRecord, kind_of,
    part, perhaps_task,
};

/// The view that a record gives over a pool.
fn deck_from<'a>(pool: &'a [u8], r: DeckRecord) -> DeckView<'a>
    ensures { DeckFrom pool.now r result }
{
    DeckView {
        address: part(pool, r.address),
        cards: r.cards,
        forward: perhaps_task(r.forward),
        backward: perhaps_task(r.backward),
        bindings: r.bindings,
    }
}

/// The deck of a number.
pub fn deck_view<T: Tables>(tables: &T, k: usize) -> DeckView<'_>
    ensures means { deck_of (numbers (T.Tables.tables tables.now)) result ≡ deck_no (T.Tables.tables tables.now) k }
    ensures placed { result.address.place ≡ (places_of (T.Tables.tables tables.now)).decks k }
    ensures lies { Lies (T.Tables.memory tables.now) result.address }
{
    deck_from(tables.pool(), tables.deck(k))
}

/// The deck at place `k` of the tables' list, under a verdict: what is refused has none.
pub fn listed_deck<T: Tables>(tables: &T, verdict: Option<Cause>, k: usize) -> Option<DeckView<'_>>
    ensures means { opt (deck_of (numbers (T.Tables.tables tables.now))) result ≡ slice_get (under verdict (listed (T.Tables.tables tables.now))) k }
    ensures placed { IfSome result (λ v. v.address.place ≡ (places_of (T.Tables.tables tables.now)).decks k) }
    ensures lies { IfSome result (λ v. Lies (T.Tables.memory tables.now) v.address) }
{
    match verdict {
        None => (k < tables.counts().decks).then(|| deck_view(tables, k)),
        Some(_) => None,
    }
}

/// The view that a record gives over a pool.
fn card_from<'a>(pool: &'a [u8], r: CardRecord) -> CardView<'a>
    ensures { CardFrom pool.now r result }
{
    CardView {
        id: part(pool, r.id),
        newcontext: r.mark == 1,
        body: part(pool, r.body),
        forward: perhaps_task(r.forward),
        backward: perhaps_task(r.backward),
        bindings: r.bindings,
    }
}

/// The card of a number.
pub fn card_view<T: Tables>(tables: &T, c: usize) -> CardView<'_>
    ensures means { card_of (numbers (T.Tables.tables tables.now)) result ≡ card_no (T.Tables.tables tables.now) c }
    ensures placed { (result.id.place, result.body.place) ≡ (places_of (T.Tables.tables tables.now)).cards c }
    ensures lies { Lies (T.Tables.memory tables.now) result.id × Lies (T.Tables.memory tables.now) result.body }
{
    card_from(tables.pool(), tables.card(c))
}

/// The view that a record gives over a pool.
fn binding_from<'a>(pool: &'a [u8], r: BindingRecord) -> BindingView<'a>
    ensures { BindingFrom pool.now r result }
{
    BindingView {
        name: part(pool, r.name),
        label: part(pool, r.label),
        task: r.task,
    }
}

/// The binding of a number.
pub fn binding_view<T: Tables>(tables: &T, b: usize) -> BindingView<'_>
    ensures means { binding_of (numbers (T.Tables.tables tables.now)) result ≡ binding_no (T.Tables.tables tables.now) b }
    ensures placed { (result.name.place, result.label.place) ≡ (places_of (T.Tables.tables tables.now)).bindings b }
    ensures lies { Lies (T.Tables.memory tables.now) result.name × Lies (T.Tables.memory tables.now) result.label }
{
    binding_from(tables.pool(), tables.binding(b))
}

/// The view that a record gives over a pool.
fn task_from<'a>(pool: &'a [u8], r: TaskRecord) -> TaskView<'a>
    ensures { TaskFrom pool.now r result }
{
    TaskView {
        kind: kind_of(r.kind),
        address: part(pool, r.address),
        assignments: r.assignments,
    }
}

/// The task of a number.
pub fn task_view<T: Tables>(tables: &T, t: u16) -> TaskView<'_>
    ensures means { task_of (numbers (T.Tables.tables tables.now)) result ≡ task_no (T.Tables.tables tables.now) t }
    ensures placed { result.address.place ≡ (places_of (T.Tables.tables tables.now)).tasks t }
    ensures lies { Lies (T.Tables.memory tables.now) result.address }
{
    task_from(tables.pool(), tables.task(t as usize))
}

/// The view that a record gives over a pool.
fn assignment_from<'a>(pool: &'a [u8], r: AssignmentRecord) -> AssignmentView<'a>
    ensures { AssignmentFrom pool.now r result }
{
    AssignmentView {
        name: part(pool, r.name),
        value: part(pool, r.value),
    }
}

/// The assignment of a number.
pub fn assignment_view<T: Tables>(tables: &T, a: usize) -> AssignmentView<'_>
    ensures means { assignment_of result ≡ assignment_no (T.Tables.tables tables.now) a }
    ensures placed { (result.name.place, result.value.place) ≡ (places_of (T.Tables.tables tables.now)).assignments a }
    ensures lies { Lies (T.Tables.memory tables.now) result.name × Lies (T.Tables.memory tables.now) result.value }
{
    assignment_from(tables.pool(), tables.assignment(a))
}
