//! Variable stores: what every store means, whatever its memory looks like.
#![tactic(auto)]

ghost use Rattle.std.specs.Prelude.{◌≡◌, ℕ, ◌+◌, ◌-◌, ◌<◌, ◌≤◌, ◌&&◌, [], length, Ok, Err, nat_le};
ghost use Rattle.store.specs.Order.{before};
ghost use Rattle.store.specs.Vars.{Vars, assign, look, size, weight};
ghost use Rattle.store.specs.Limits.{Limits, verdict, one, load, number_of};
ghost use Rattle.store.specs.Lawful.{Lawful};

/// Why a pair is not set.
#[derive(Clone, Copy, PartialEq, Eq, Debug)]
pub enum Refusal {
    /// The name is no name or has over 16 bytes, or the value has over 64.
    Unstorable,
    /// The variables would exceed a limit.
    NoRoom,
}

impl Refusal {
    /// The refusal by its number: 12 or 24.
    pub fn number(self) -> u8
        ensures { result ≡ number_of self }
    {
        match self {
            Refusal::Unstorable => 12,
            Refusal::NoRoom => 24,
        }
    }
}

/// Set names with their values, under two fixed limits.
///
/// A store is told by its meaning alone: the list of pairs in ascending order of the names. What lies
/// in its memory is its own affair, but a refusal and a question leave every byte of it as it was.
pub trait Store {
    ghost meaning: { Self → Vars };

    ghost limits: { Self → Limits };

    ghost lawful: { Lawful meaning limits };

    /// Sets one variable; an empty value unsets it.
    fn set(&mut self, name: &[u8], value: &[u8]) -> Result<(), Refusal>
        ensures limits { limits self.new ≡ limits self.old }
        ensures answer { result ≡ verdict (limits self.old) (meaning self.old) name.now value.now }
        ensures outcome { elim result [ Ok _ ↦ meaning self.new ≡ assign (meaning self.old) name.now value.now | Err _ ↦ self.new ≡ self.old ] };

    /// Unsets all variables.
    fn clear(&mut self)
        ensures limits { limits self.new ≡ limits self.old }
        ensures outcome { meaning self.new ≡ [] };

    /// The value of a name, empty where it is not set.
    fn value(&self, name: &[u8]) -> &[u8]
        ensures { result.now ≡ look (meaning self.now) name.now };

    /// How many names are set.
    fn count(&self) -> usize
        ensures { result ≡ size (meaning self.now) };

    /// How many bytes the set names and their values have.
    fn bytes(&self) -> usize
        ensures { result ≡ weight (meaning self.now) };

    /// How many names can be set at most.
    fn most_names(&self) -> usize
        ensures { result ≡ (limits self.now).names };

    /// How many bytes the set names and their values can have at most.
    fn most_bytes(&self) -> usize
        ensures { result ≡ (limits self.now).bytes };
}

/// Whether the name `a` comes before the name `b`.
pub fn precedes(a: &[u8], b: &[u8]) -> bool
    ensures { result ≡ before a.now b.now }
{
    a < b
}

/// How many names are set, and how many bytes they and their values have.
#[derive(Clone, Copy)]
pub struct Totals {
    pub names: usize,
    pub bytes: usize,
}

impl Totals {
    /// What a pair adds to the totals, by the lengths of its name and its value: nothing where the value is empty.
    fn of_pair(name: usize, value: usize) -> Totals
        requires name { name ≤ 16 }
        requires value { value < 65536 }
        ensures names { result.names ≡ one value }
        ensures bytes { result.bytes ≡ load name value }
    {
        if value == 0 {
            Totals { names: 0, bytes: 0 }
        } else {
            Totals {
                names: 1,
                bytes: name + value,
            }
        }
    }

    /// The totals after a name's value of the old length gave way to one of the new length.
    pub fn after(self, name: usize, old: usize, new: usize) -> Totals
        requires name { name ≤ 16 }
        requires old { old < 65536 }
        requires new { new ≤ 64 }
        requires names { one old ≤ self.names }
        requires bytes { load name old ≤ self.bytes }
        requires few { self.names < 65536 }
        requires light { self.bytes < 65536 }
        ensures names { result.names ≡ (self.names - one old) + one new }
        ensures bytes { result.bytes ≡ (self.bytes - load name old) + load name new }
    {
        let out = Totals::of_pair(name, old);
        let into = Totals::of_pair(name, new);
        Totals {
            names: self.names - out.names + into.names,
            bytes: self.bytes - out.bytes + into.bytes,
        }
    }

    /// Whether neither limit is exceeded.
    pub fn within(self, names: usize, bytes: usize) -> bool
        ensures { result ≡ (nat_le self.names names && nat_le self.bytes bytes) }
    {
        self.names <= names && self.bytes <= bytes
    }
}
