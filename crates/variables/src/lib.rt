//! The variables of any store, as a text's source of values.
#![tactic(auto)]

ghost use Rattle.std.specs.Prelude.{◌≡◌, ◌≤◌, length};
ghost use Rattle.store.specs.Vars.{look};

use store::Store;
use text::Values;

/// A store that is asked for values alone.
#[derive(Clone, Copy)]
pub struct Variables<'a, S> {
    pub store: &'a S,
}

/// The value of a name, which no store lets exceed 64 bytes.
fn short_value<'a, S: Store>(store: &'a S, name: &[u8]) -> &'a [u8]
    ensures value { result.now ≡ look (S.Store.meaning store.now) name.now }
    ensures short { length result.now ≤ 64 }
{
    store.value(name)
}

impl<'a, S: Store> Values for Variables<'a, S> {
    ghost lookup = { λ v. look (S.Store.meaning v.store.now) };

    fn value(&self, name: &[u8]) -> &[u8] {
        short_value(self.store, name)
    }
}
