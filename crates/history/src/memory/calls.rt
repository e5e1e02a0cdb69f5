//! The calls on a history.
ghost use Rattle.std.specs.Prelude.{◌≡◌, []};
ghost use Rattle.address.specs.Meaning.{address_of};
ghost use Rattle.decks.specs.Views.{opt};
ghost use Rattle.machine.specs.Place.{newest, second};
ghost use Rattle.machine.specs.Going.{moved};
ghost use Rattle.decks.specs.declared.Way.TheVariants.{Forward, Backward};
ghost use Rattle.history.specs.Kept.{kept};

use super::History;
use address::Address;

impl History {
    /// No address.
    pub fn new() -> History
        ensures { kept result ≡ [] }
    {
        History {
            entries: [None; 16],
        }
    }

    /// Removes every address.
    pub fn clear(&mut self)
        ensures { kept self.new ≡ [] }
    {
        self.entries = [None; 16];
    }

    /// Adds the address of a card that was entered by a go; the oldest leaves if there were sixteen.
    pub fn push(&mut self, address: Address)
        ensures { kept self.new ≡ moved Forward (address_of address) (kept self.old) }
    {
        self.entries.rotate_right(1);
        self.entries[0] = Some(address);
    }

    /// Removes the newest address, if there is one.
    pub fn pop(&mut self)
        ensures { kept self.new ≡ moved Backward [] (kept self.old) }
    {
        if self.entries[0].is_some() {
            self.entries[0] = None;
            self.entries.rotate_left(1);
        }
    }

    /// The address of the current card, if there is one.
    pub fn newest(&self) -> Option<Address>
        ensures { opt address_of result ≡ newest (kept self.now) }
    {
        let [newest, ..] = self.entries;
        newest
    }

    /// The address before it, if there is one.
    pub fn second(&self) -> Option<Address>
        ensures { opt address_of result ≡ second (kept self.now) }
    {
        let [newest, second, ..] = self.entries;
        newest.and(second)
    }
}
