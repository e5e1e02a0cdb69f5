//! The packed run as a store: 32 names, and all but 64 of the bytes that it is lent.
#![tactic(auto)]

ghost use Rattle.std.specs.Prelude.{◌≡◌, take};
ghost use Rattle.runs.specs.Run.{reads, limits_of};
ghost use Rattle.runs.specs.Spot.{Found};
ghost use Rattle.packed.specs.Laws.{packed-lawful};

use names::is_storable;
use runs::{MOST_NAMES, Spot, find, rewrite, room_of, value_at, wipe};
use store::{Refusal, Store};

mod run;

pub use run::PackedRun;

/// How many bytes a packed run uses at most.
pub const MOST_MEMORY: usize = 4160;

impl<'a> PackedRun<'a> {
    /// A store over the first 4,160 of the bytes, which stay as they are.
    pub fn new(bytes: &'a mut [u8]) -> PackedRun<'a>
        ensures memory { result.bytes.now ≡ take 4160 bytes.old }
        ensures limits { limits_of result.bytes.now ≡ limits_of bytes.old }
    {
        let used = bytes.len().min(MOST_MEMORY);
        PackedRun {
            bytes: &mut bytes[0..used],
        }
    }

    fn find(&self, name: &[u8]) -> Spot
        ensures { Found (reads self.now.bytes.now) name.now result }
    {
        find(&*self.bytes, name)
    }
}

impl<'a> Store for PackedRun<'a> {
    ghost meaning = { λ t. reads t.bytes.now };

    ghost limits = { λ t. limits_of t.bytes.now };

    ghost lawful = { packed-lawful };

    fn set(&mut self, name: &[u8], value: &[u8]) -> Result<(), Refusal> {
        if !is_storable(name, value) {
            return Err(Refusal::Unstorable);
        }
        let spot = self.find(name);
        let old = spot.value.unwrap_or(0);
        let after = spot.totals.after(name.len(), old, value.len());
        if !after.within(MOST_NAMES, self.most_bytes()) {
            return Err(Refusal::NoRoom);
        }
        rewrite(self.bytes, spot, name, value);
        Ok(())
    }

    fn clear(&mut self) {
        wipe(self.bytes)
    }

    fn value(&self, name: &[u8]) -> &[u8] {
        value_at(&*self.bytes, name)
    }

    fn count(&self) -> usize {
        self.find(b"").totals.names
    }

    fn bytes(&self) -> usize {
        self.find(b"").totals.bytes
    }

    fn most_names(&self) -> usize {
        MOST_NAMES
    }

    fn most_bytes(&self) -> usize {
        room_of(&*self.bytes)
    }
}
