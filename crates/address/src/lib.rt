//! Addresses: which byte strings are lawful, and their parts.
//!
//! An address is `http://`, a host, a path, and perhaps `#` and a fragment, in at most 128 bytes. What precedes the `#` is the
//! address of a deck, and the fragment names a card in it.
#![tactic(auto)]

ghost use Rattle.std.specs.Prelude.{◌≡◌};
ghost use Rattle.address.specs.Address.{lawful, is_deck_address};
ghost use Rattle.address.specs.Grammar.{Grammar};

use layout::Layout;

pub mod fault;
pub mod kind;
mod layout;
pub mod memory;

pub use fault::Unlawful;
pub use kind::Kind;
pub use layout::MOST;
pub use memory::Address;

/// Whether the bytes are a lawful address.
pub fn is_lawful(bytes: &[u8]) -> bool
    ensures value { result ≡ lawful bytes.now }
    ensures grammar { Grammar }
{
    Layout::of(bytes).is_some()
}

/// Whether the bytes are a lawful address without `#`.
#[tactic(auto, using(crate::proofs::Cuts::any_has))]
pub fn is_deck_address(bytes: &[u8]) -> bool
    ensures { result ≡ is_deck_address bytes.now }
{
    is_lawful(bytes) && !bytes.contains(&b'#')
}
