//! Five tables of records and a pool of text, wherever they lie: the records, when one keeps its
//! allowances, and what a record's fields mean.
#![tactic(auto)]

ghost use Rattle.std.specs.Prelude.{◌≡◌, ℕ, ◌+◌, ◌-◌, ◌<◌, ◌≤◌, List, length, take, slice_index_or};
ghost use Rattle.tables.specs.Records.{Tabled, counts_of, no_deck, no_card, no_binding, no_task, no_assignment};
ghost use Rattle.tables.specs.Tests.{ref_ok, text_ok, run_ok, perhaps_task_ok, deck_ok, card_ok, binding_ok, task_ok, assignment_ok, counts_ok};
ghost use Rattle.tables.specs.Meaning.{text_of, kind_of, perhaps};
ghost use Rattle.tables.specs.Verdict.{cause_number};
ghost use Rattle.decks.specs.Views.{Lies};

mod words;

use decks::{Kind, Part, Run};

// The records below keep the file's own numbers, as `u8` and `u16`: any file can be read into them,
// and they are judged after.

/// Where a text starts in the pool, and how many bytes it has.
#[derive(Clone, Copy)]
pub struct Ref {
    pub start: u16,
    pub len: u16,
}

/// A deck: its address, its cards, and the tasks and bindings of its template. A task number of
/// 65,535 means none.
#[derive(Clone, Copy)]
pub struct DeckRecord {
    pub address: Ref,
    pub cards: Run,
    pub forward: u16,
    pub backward: u16,
    pub bindings: Run,
}

/// A card. A mark of 1 is newcontext, and a task number of 65,535 means none.
#[derive(Clone, Copy)]
pub struct CardRecord {
    pub id: Ref,
    pub mark: u8,
    pub body: Ref,
    pub forward: u16,
    pub backward: u16,
    pub bindings: Run,
}

/// A binding, with the number of its task.
#[derive(Clone, Copy)]
pub struct BindingRecord {
    pub name: Ref,
    pub label: Ref,
    pub task: u16,
}

/// A task: kind 0 is noop, 1 go, 2 prev, 3 refresh.
#[derive(Clone, Copy)]
pub struct TaskRecord {
    pub kind: u8,
    pub address: Ref,
    pub assignments: Run,
}

/// An assignment of a value text to a name text.
#[derive(Clone, Copy)]
pub struct AssignmentRecord {
    pub name: Ref,
    pub value: Ref,
}

/// The bytes of the pool and the records of each table.
#[derive(Clone, Copy)]
pub struct Counts {
    pub pool: usize,
    pub decks: usize,
    pub cards: usize,
    pub bindings: usize,
    pub tasks: usize,
    pub assignments: usize,
}

/// The five tables, in their order.
#[derive(Clone, Copy)]
pub enum Table {
    Decks,
    Cards,
    Bindings,
    Tasks,
    Assignments,
}

/// Why a shelf is refused: its size, its form or mark, parts that do not add up to the length, a
/// record outside its allowance, or a deck's address.
#[derive(Clone, Copy)]
pub enum Cause {
    Size,
    Form,
    Sum,
    Record,
    Address,
}

impl Cause {
    /// The number of the refusal. (Written out, as two causes may not share one.)
    pub fn number(self) -> u8
        ensures { result ≡ cause_number self }
    {
        match self {
            Cause::Size => 41,
            Cause::Form => 42,
            Cause::Sum => 43,
            Cause::Record => 44,
            Cause::Address => 45,
        }
    }
}

const NO_REF: Ref = Ref { start: 0, len: 0 };

const NO_RUN: Run = Run { first: 0, count: 0 };

/// What stands past the end of the table of decks.
pub const NO_DECK: DeckRecord = DeckRecord {
    address: NO_REF,
    cards: NO_RUN,
    forward: 65_535,
    backward: 65_535,
    bindings: NO_RUN,
};

/// What stands past the end of the table of cards.
pub const NO_CARD: CardRecord = CardRecord {
    id: NO_REF,
    mark: 0,
    body: NO_REF,
    forward: 65_535,
    backward: 65_535,
    bindings: NO_RUN,
};

/// What stands past the end of the table of bindings.
pub const NO_BINDING: BindingRecord = BindingRecord {
    name: NO_REF,
    label: NO_REF,
    task: 65_535,
};

/// What stands past the end of the table of tasks.
pub const NO_TASK: TaskRecord = TaskRecord {
    kind: 0,
    address: NO_REF,
    assignments: NO_RUN,
};

/// What stands past the end of the table of assignments.
pub const NO_ASSIGNMENT: AssignmentRecord = AssignmentRecord {
    name: NO_REF,
    value: NO_REF,
};

/// A pool and five tables. The pool is the front of the memory that it lies in.
pub trait Tables {
    ghost tables: { Self → Tabled };

    ghost memory: { Self → List ℕ };

    /// The pool of text.
    fn pool(&self) -> &[u8]
        ensures bytes { result.now ≡ (tables self.now).pool }
        ensures front { result.now ≡ take (length result.now) (memory self.now) };

    /// The length of the pool and of each table.
    fn counts(&self) -> Counts
        ensures { result ≡ counts_of (tables self.now) };

    /// Record `i` of the decks, and past their end `NO_DECK`.
    fn deck(&self, i: usize) -> DeckRecord
        ensures { result ≡ slice_index_or (tables self.now).decks i no_deck };

    /// Record `i` of the cards, and past their end `NO_CARD`.
    fn card(&self, i: usize) -> CardRecord
        ensures { result ≡ slice_index_or (tables self.now).cards i no_card };

    /// Record `i` of the bindings, and past their end `NO_BINDING`.
    fn binding(&self, i: usize) -> BindingRecord
        ensures { result ≡ slice_index_or (tables self.now).bindings i no_binding };

    /// Record `i` of the tasks, and past their end `NO_TASK`.
    fn task(&self, i: usize) -> TaskRecord
        ensures { result ≡ slice_index_or (tables self.now).tasks i no_task };

    /// Record `i` of the assignments, and past their end `NO_ASSIGNMENT`.
    fn assignment(&self, i: usize) -> AssignmentRecord
        ensures { result ≡ slice_index_or (tables self.now).assignments i no_assignment };
}

/// The text that a ref means: that part of the pool, and no bytes where it leaves the pool.
pub fn part<'a>(pool: &'a [u8], r: Ref) -> Part<'a>
    ensures bytes { result.bytes.now ≡ text_of pool.now r }
    ensures place { result.place ≡ r.start }
    ensures lies { Lies pool.now result }
{
    let start = r.start as usize;
    let end = start + r.len as usize;
    if end <= pool.len() {
        Part {
            bytes: &pool[start..end],
            place: start,
        }
    } else {
        Part {
            bytes: &[],
            place: start,
        }
    }
}

/// The kind of a task by its number. (Not a `TryFrom`: a number that is no kind means noop.)
pub fn kind_of(kind: u8) -> Kind
    ensures { result ≡ kind_of kind }
{
    match kind {
        1 => Kind::Go,
        2 => Kind::Prev,
        3 => Kind::Refresh,
        _ => Kind::Noop,
    }
}

/// A task number where 65,535 means none. (`(n != 65_535).then_some(n)` would say no more.)
pub fn perhaps_task(n: u16) -> Option<u16>
    ensures { result ≡ perhaps n }
{
    if n == 65_535 { None } else { Some(n) }
}

/// Whether a run lies within a table of `n` records.
pub fn run_ok(r: Run, n: usize) -> bool
    ensures { result ≡ run_ok r n }
{
    r.first as usize + r.count as usize <= n
}

impl Counts {
    /// Whether each table has at most 65,535 records.
    pub fn counts_ok(self) -> bool
        ensures { result ≡ counts_ok self }
    {
        self.decks <= 65_535
            && self.cards <= 65_535
            && self.bindings <= 65_535
            && self.tasks <= 65_535
            && self.assignments <= 65_535
    }

    /// Whether a ref lies within the pool.
    pub fn ref_ok(self, r: Ref) -> bool
        ensures { result ≡ ref_ok self r }
    {
        r.start as usize + r.len as usize <= self.pool
    }

    /// Whether a text lies within the pool and has at most 1,024 bytes.
    pub fn text_ok(self, r: Ref) -> bool
        ensures { result ≡ text_ok self r }
    {
        self.ref_ok(r) && r.len <= 1024
    }

    /// Whether a task number of a deck or a card is 65,535 or that of a task.
    pub fn perhaps_task_ok(self, t: u16) -> bool
        ensures { result ≡ perhaps_task_ok self t }
    {
        t == 65_535 || (t as usize) < self.tasks
    }

    /// Whether a deck keeps its allowances.
    pub fn deck_ok(self, r: DeckRecord) -> bool
        ensures { result ≡ deck_ok self r }
    {
        self.ref_ok(r.address)
            && r.cards.count > 0
            && run_ok(r.cards, self.cards)
            && self.perhaps_task_ok(r.forward)
            && self.perhaps_task_ok(r.backward)
            && run_ok(r.bindings, self.bindings)
    }

    /// Whether a card keeps its allowances.
    pub fn card_ok(self, r: CardRecord) -> bool
        ensures { result ≡ card_ok self r }
    {
        self.ref_ok(r.id)
            && r.id.len <= 32
            && r.mark <= 1
            && self.text_ok(r.body)
            && self.perhaps_task_ok(r.forward)
            && self.perhaps_task_ok(r.backward)
            && run_ok(r.bindings, self.bindings)
    }

    /// Whether a binding keeps its allowances.
    pub fn binding_ok(self, r: BindingRecord) -> bool
        ensures { result ≡ binding_ok self r }
    {
        self.ref_ok(r.name)
            && r.name.len > 0
            && r.name.len <= 32
            && self.text_ok(r.label)
            && (r.task as usize) < self.tasks
    }

    /// Whether a task keeps its allowances.
    pub fn task_ok(self, r: TaskRecord) -> bool
        ensures { result ≡ task_ok self r }
    {
        r.kind <= 3
            && self.text_ok(r.address)
            && r.assignments.count <= 16
            && run_ok(r.assignments, self.assignments)
    }

    /// Whether an assignment keeps its allowances.
    pub fn assignment_ok(self, r: AssignmentRecord) -> bool
        ensures { result ≡ assignment_ok self r }
    {
        self.text_ok(r.name) && self.text_ok(r.value)
    }
}
