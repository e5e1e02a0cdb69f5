//! What a history holds.
ghost use Rattle.std.specs.Prelude.{◌≡◌, length};

use address::Address;

mod calls;

/// At most sixteen addresses, the newest first.
#[derive(Clone, Copy)]
pub struct History {
    /// The addresses, and from the first `None` on nothing that counts: inline, since the browser uses no heap.
    entries: [Option<Address>; 16],
    ghost whole: { length entries ≡ 16 },
}
