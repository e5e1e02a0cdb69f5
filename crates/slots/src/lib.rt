//! The slot table: a variable store over a lent slice of slots, found and rewritten in place.
#![tactic(auto)]

ghost use Rattle.std.specs.Prelude.{◌≡◌, [], Ok, Err};
ghost use Rattle.slot_rows.specs.Slots.{empty_slot};
ghost use Rattle.slot_rows.specs.Rows.{reads};
ghost use Rattle.slot_rows.specs.Places.{Places};
ghost use Rattle.slot_rows.specs.Table.{table_of, changed, Rewrites};
ghost use Rattle.store.specs.Vars.{assign};
ghost use Rattle.store.specs.Limits.{verdict};
ghost use Rattle.slots.specs.Laws.{limits_of, slots-lawful};

use slot_rows::{find, free, place, totals, used, used_len, wipe};
use store::{Refusal, Store};

pub mod table;

pub use slot_rows::Slot;
pub use table::SlotTable;

impl<'a> SlotTable<'a> {
    /// A table over the slots as they are: nothing is written.
    pub fn new(slots: &'a mut [Slot]) -> SlotTable<'a>
        ensures same { result.slots.now ≡ slots.old }
    {
        SlotTable { slots }
    }

    fn used(&self) -> &[Slot]
        ensures { result.now ≡ table_of self.now.slots.now }
    {
        used(&*self.slots)
    }

    fn place(&self, name: &[u8]) -> Option<usize>
        ensures { Places name.now (table_of self.now.slots.now) result }
    {
        place(self.used(), name)
    }
}

impl<'a> Store for SlotTable<'a> {
    ghost meaning = { λ t. reads (table_of t.slots.now) };

    ghost limits = { λ t. limits_of t.slots.now };

    ghost lawful = { slots-lawful };

    /// Sets one variable in place; an empty value frees every slot of the name.
    fn set(&mut self, name: &[u8], value: &[u8]) -> Result<(), Refusal>
        ensures limits { limits_of self.new.slots.now ≡ limits_of self.old.slots.now }
        ensures answer { result ≡ verdict (limits_of self.old.slots.now) (reads (table_of self.old.slots.now)) name.now value.now }
        ensures outcome { elim result [ Ok _ ↦ reads (table_of self.new.slots.now) ≡ assign (reads (table_of self.old.slots.now)) name.now value.now | Err _ ↦ self.new ≡ self.old ] }
        ensures memory { elim result [ Ok _ ↦ Rewrites name.now value.now self.old.slots.now self.new.slots.now | Err _ ↦ self.new.slots.now ≡ self.old.slots.now ] }
    {
        let Some(slot) = Slot::of(name, value) else {
            return Err(Refusal::Unstorable);
        };
        if value.is_empty() {
            free(self.slots, name);
            return Ok(());
        }
        let Some(i) = self.place(name) else {
            return Err(Refusal::NoRoom);
        };
        self.slots[i] = slot;
        Ok(())
    }

    /// Unsets all variables: no byte of a name or a value is left in the table.
    fn clear(&mut self)
        ensures limits { limits_of self.new.slots.now ≡ limits_of self.old.slots.now }
        ensures outcome { reads (table_of self.new.slots.now) ≡ [] }
        ensures memory { self.new.slots.now ≡ changed (λ _. empty_slot) self.old.slots.now }
    {
        wipe(self.slots)
    }

    /// The value of a name, handed out where it lies; empty where the name is not set.
    fn value(&self, name: &[u8]) -> &[u8] {
        let used = self.used();
        match find(used, name) {
            Some(i) => used[i].value(),
            None => &[],
        }
    }

    /// How many names are set.
    fn count(&self) -> usize {
        totals(&*self.slots).names
    }

    /// How many bytes the set names and their values have.
    fn bytes(&self) -> usize {
        totals(&*self.slots).bytes
    }

    /// As many names as slots, 64 at most.
    fn most_names(&self) -> usize {
        used_len(self.slots.len())
    }

    /// 80 bytes for each name.
    fn most_bytes(&self) -> usize {
        80 * self.most_names()
    }
}
