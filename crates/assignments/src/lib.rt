//! Assignments that are made together, over any store: all of them or none.
#![tactic(auto)]

ghost use Rattle.std.specs.Prelude.{◌≡◌, ◌≤◌, true, false, [], length, take, position, Ok, Err, MatchResult};
ghost use Rattle.names.specs.Names.{storable};
ghost use Rattle.store.specs.declared.Refusal.TheVariants.{Unstorable};
ghost use Rattle.store.specs.Limits.{within};
ghost use Rattle.assignments.specs.Joint.{put_all, added, jointly};
ghost use Rattle.assignments.specs.Unsetting.{without_all, lacks_all};
ghost use Rattle.assignments.specs.Pairs.{name_of, value_of, pairs_of, has_name};
ghost use Rattle.assignments.specs.Listed.{listed};
ghost use Rattle.assignments.specs.Laws.{InTurn};
ghost use Rattle.store.specs.Vars.{size, without};

use names::is_storable;
use short_text::Short;
use store::{Refusal, Store, Totals};

mod list;
mod pair;

pub use list::Assignments;
pub use pair::Pair;

impl Pair {
    /// The pair of a name and a value, refused if it cannot be stored.
    pub fn new(name: &[u8], value: &[u8]) -> Result<Pair, Refusal>
        ensures { MatchResult result (λ p. (storable name.now value.now ≡ true) × (name_of p ≡ name.now) × (value_of p ≡ value.now)) (λ e. (storable name.now value.now ≡ false) × (e ≡ Unstorable)) }
    {
        if !is_storable(name, value) {
            return Err(Refusal::Unstorable);
        }
        Ok(Pair {
            name: Short::of(name),
            value: Short::of(value),
        })
    }

    /// A pair to fill memory with: the name `_` with no value.
    fn blank() -> Pair {
        Pair {
            name: Short::of(b"_"),
            value: Short::empty(),
        }
    }

    /// The name.
    pub fn name(&self) -> &[u8]
        ensures { result.now ≡ name_of self.now }
    {
        self.name.as_bytes()
    }

    /// The value, empty where the pair unsets.
    pub fn value(&self) -> &[u8]
        ensures { result.now ≡ value_of self.now }
    {
        self.value.as_bytes()
    }
}

impl Assignments {
    /// No assignments.
    pub fn none() -> Assignments
        ensures { listed result ≡ [] }
    {
        Assignments {
            list: [Pair::blank(); 16],
            count: 0,
        }
    }

    /// Adds an assignment at the end; an earlier one of its name leaves the list.
    ///
    /// There may be 16 after that at most, and a task has no more. Making the list gives the variables that
    /// making each assignment in turn would give: of several to one name the last counts.
    pub fn add(&mut self, pair: Pair)
        requires { size (added (listed self.old) (name_of pair) (value_of pair)) ≤ 16 }
        ensures list { listed self.new ≡ added (listed self.old) (name_of pair) (value_of pair) }
        ensures in_turn { InTurn }
    {
        self.remove(pair.name());
        self.list[self.count] = pair;
        self.count += 1;
    }

    /// Takes the assignment of a name out of the list, if there is one; no name stands twice.
    fn remove(&mut self, name: &[u8])
        ensures list { listed self.new ≡ without (listed self.old) name.now }
        ensures whole { length self.new.list ≡ 16 }
    {
        if let Some(i) = self.place(name) {
            self.list.copy_within(i + 1..self.count, i);
            self.count -= 1;
        }
    }

    /// The place of a name in the list.
    fn place(&self, name: &[u8]) -> Option<usize>
        ensures { result ≡ position (has_name name.now) (take self.now.count self.now.list) }
    {
        self.list[..self.count]
            .iter()
            .position(|pair| name == pair.name())
    }

    /// The assignments in the list, in the order in which they came.
    fn pairs(&self) -> &[Pair]
        ensures listed { pairs_of result.now ≡ listed self.now }
        ensures few { length result.now ≤ 16 }
    {
        &self.list[..self.count]
    }

    /// Whether the variables after all the assignments would be within the store's limits.
    pub fn fits<S: Store>(&self, store: &S) -> bool
        ensures { result ≡ within (S.Store.limits store.now) (put_all (S.Store.meaning store.now) (listed self.now)) }
    {
        let assigned = self.pairs();
        let mut total = Totals {
            names: store.count(),
            bytes: store.bytes(),
        };
        for p in assigned {
            let name = p.name();
            let old = store.value(name).len();
            total = total.after(name.len(), old, p.value().len());
        }
        total.within(store.most_names(), store.most_bytes())
    }

    /// Makes all the assignments, or none where the variables after all of them would exceed a limit.
    ///
    /// Only the outcome is judged, so what is assigned is unset first: then no step on the way is refused.
    pub fn make<S: Store>(&self, store: &mut S) -> Result<(), Refusal>
        ensures limits { S.Store.limits store.new ≡ S.Store.limits store.old }
        ensures answer { result ≡ jointly (S.Store.limits store.old) (S.Store.meaning store.old) (listed self.now) }
        ensures outcome { elim result [ Ok _ ↦ S.Store.meaning store.new ≡ put_all (S.Store.meaning store.old) (listed self.now) | Err _ ↦ store.new ≡ store.old ] }
    {
        if !self.fits(store) {
            return Err(Refusal::NoRoom);
        }
        self.unset_all(store);
        self.set_all(store);
        Ok(())
    }

    /// Unsets every name that is assigned.
    fn unset_all<S: Store>(&self, store: &mut S)
        ensures limits { S.Store.limits store.new ≡ S.Store.limits store.old }
        ensures outcome { S.Store.meaning store.new ≡ without_all (S.Store.meaning store.old) (listed self.now) }
    {
        for p in self.pairs() {
            let _ = store.set(p.name(), b"");
        }
    }

    /// Sets every pair, where none of the names is set and the outcome is within the limits: so none is refused.
    fn set_all<S: Store>(&self, store: &mut S)
        requires unset { lacks_all (S.Store.meaning store.old) (listed self.now) ≡ true }
        requires fits { within (S.Store.limits store.old) (put_all (S.Store.meaning store.old) (listed self.now)) ≡ true }
        ensures limits { S.Store.limits store.new ≡ S.Store.limits store.old }
        ensures outcome { S.Store.meaning store.new ≡ put_all (S.Store.meaning store.old) (listed self.now) }
    {
        for p in self.pairs() {
            let _ = store.set(p.name(), p.value());
        }
    }
}
