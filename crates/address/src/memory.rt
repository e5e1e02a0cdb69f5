//! A lawful address in inline memory.
ghost use Rattle.std.specs.Prelude.{◌≡◌, ◌-◌, ◌≤◌, true, length, take, drop};
ghost use Rattle.address.specs.Address.{lawful, host_of, path_of, deck_of, fragment_of};

use crate::layout::{Layout, MOST};

mod calls;

/// A lawful address. There is no other value of this type.
#[derive(Clone, Copy)]
pub struct Address {
    /// The address, and then bytes without meaning: inline, since the browser uses no heap.
    bytes: [u8; MOST],
    /// How many bytes the address has.
    len: usize,
    /// Where its path begins, and where its deck address ends.
    layout: Layout,
    /// Where its fragment begins: after the `#`, or at the end where there is none.
    fragment: usize,
    ghost room: { length bytes ≡ 128 },
    ghost within: { len ≤ 128 },
    ghost order: { (7 ≤ layout.path) × (layout.path ≤ layout.deck) × (layout.deck ≤ fragment) × (fragment ≤ len) },
    ghost holds: { lawful (take len bytes) ≡ true },
    ghost hosts: { take (layout.path - 7) (drop 7 bytes) ≡ host_of (take len bytes) },
    ghost paths: { take (layout.deck - layout.path) (drop layout.path bytes) ≡ path_of (take len bytes) },
    ghost decks: { take layout.deck bytes ≡ deck_of (take len bytes) },
    ghost fragments: { take (len - fragment) (drop fragment bytes) ≡ fragment_of (take len bytes) },
}
