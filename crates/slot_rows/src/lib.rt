//! The slots of a table, each with a name and a value, and what a row of them means.
#![tactic(auto)]

ghost use Rattle.std.specs.Prelude.{◌≡◌, ◌≤◌, min, not, length, position};
ghost use Rattle.store.specs.Vars.{size, weight};
ghost use Rattle.slot_rows.specs.Rows.{reads, counts};
ghost use Rattle.slot_rows.specs.Places.{Spares, Places};
ghost use Rattle.slot_rows.specs.Table.{table_of, changed};
ghost use Rattle.slot_rows.specs.Slots.{name_of, value_of, full, slot_for, empty_slot, freed, holds_name};

use names::is_storable;
use short_text::Short;
use store::Totals;

/// How many slots a table uses at most.
pub const MOST_SLOTS: usize = 64;

/// One slot: a name and a value, each with its length.
#[derive(Clone, Copy)]
pub struct Slot {
    pub name: Short<16>,
    pub value: Short<64>,
}

impl Slot {
    /// The slot that holds nothing: every byte is zero.
    pub fn empty() -> Slot
        ensures { result ≡ empty_slot }
    {
        Slot {
            name: Short::empty(),
            value: Short::empty(),
        }
    }

    /// The name in the slot; a length over 16 counts as 16.
    pub fn name(&self) -> &[u8]
        ensures { result.now ≡ name_of self.now }
    {
        self.name.as_bytes()
    }

    /// The value in the slot; a length over 64 counts as 64.
    pub fn value(&self) -> &[u8]
        ensures { result.now ≡ value_of self.now }
    {
        self.value.as_bytes()
    }

    /// Whether the slot holds a pair: one that can be stored, whose value is not empty.
    pub fn is_full(&self) -> bool
        ensures { result ≡ full self.now }
    {
        is_storable(self.name(), self.value()) && self.value().len() != 0
    }

    /// Whether the slot holds a pair of the name.
    pub fn holds(&self, name: &[u8]) -> bool
        ensures { result ≡ holds_name name.now self.now }
    {
        name == self.name() && self.is_full()
    }

    /// The slot that a pair is written as, with zeros after the name and the value; none where it cannot be stored.
    pub fn of(name: &[u8], value: &[u8]) -> Option<Slot>
        ensures { result ≡ slot_for name.now value.now }
    {
        if !is_storable(name, value) {
            return None;
        }
        Some(Slot {
            name: Short::of(name),
            value: Short::of(value),
        })
    }
}

/// The place of the first slot that holds the name.
pub fn find(slots: &[Slot], name: &[u8]) -> Option<usize>
    ensures { result ≡ position (holds_name name.now) slots.now }
{
    slots.iter().position(|slot| slot.holds(name))
}

/// Whether a slot behind those of the front counts: it is full, and none of them holds its name.
fn counts(front: &[Slot], slot: &Slot) -> bool
    ensures { result ≡ counts front.now slot.now }
{
    slot.is_full() && find(front, slot.name()).is_none()
}

/// The place of the first slot that is not full.
fn vacant(slots: &[Slot]) -> Option<usize>
    ensures { result ≡ position (λ s. not (full s)) slots.now }
{
    slots.iter().position(|slot| !slot.is_full())
}

/// The place of the first slot that does not count. Where there is none, there are as many names as slots.
fn shadowed(slots: &[Slot]) -> Option<usize>
    ensures { Spares slots.now result }
{
    for (i, slot) in slots.iter().enumerate() {
        if !counts(&slots[..i], slot) {
            return Some(i);
        }
    }
    None
}

/// The place of a slot that does not count: one that is not full, else one whose name stands before it.
fn spare(slots: &[Slot]) -> Option<usize>
    ensures { Spares slots.now result }
{
    vacant(slots).or_else(|| shadowed(slots))
}

/// Where a pair of the name is to be written: at the name's own place, else in a slot that does not count.
pub fn place(slots: &[Slot], name: &[u8]) -> Option<usize>
    ensures { Places name.now slots.now result }
{
    find(slots, name).or_else(|| spare(slots))
}

/// How many of so many slots a table uses: all of them, but 64 at most.
pub fn used_len(slots: usize) -> usize
    ensures { result ≡ min slots 64 }
{
    slots.min(MOST_SLOTS)
}

/// The slots that a table uses: the first 64 at most.
pub fn used(slots: &[Slot]) -> &[Slot]
    ensures front { result.now ≡ table_of slots.now }
    ensures few { length result.now ≤ 64 }
{
    &slots[..used_len(slots.len())]
}

/// How many names the table means, and how many bytes these and their values have.
pub fn totals(slots: &[Slot]) -> Totals
    ensures names { result.names ≡ size (reads (table_of slots.now)) }
    ensures bytes { result.bytes ≡ weight (reads (table_of slots.now)) }
{
    let table = used(slots);
    let mut names = 0;
    let mut bytes = 0;
    for (i, slot) in table.iter().enumerate() {
        if counts(&table[..i], slot) {
            names += 1;
            bytes += slot.name().len() + slot.value().len();
        }
    }
    Totals { names, bytes }
}

/// Makes every slot of the table that holds the name an empty one.
pub fn free(slots: &mut [Slot], name: &[u8])
    ensures { slots.new ≡ changed (freed name.now) slots.old }
{
    let used = used_len(slots.len());
    for slot in &mut slots[..used] {
        if slot.holds(name) {
            *slot = Slot::empty();
        }
    }
}

/// Makes every slot of the table an empty one: no byte of a name or a value is left.
pub fn wipe(slots: &mut [Slot])
    ensures { slots.new ≡ changed (λ _. empty_slot) slots.old }
{
    let used = used_len(slots.len());
    slots[..used].fill(Slot::empty());
}
