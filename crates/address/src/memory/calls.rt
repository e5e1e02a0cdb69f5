//! The calls on an address.
ghost use Rattle.std.specs.Prelude.{◌≡◌, ◌+◌, ◌≤◌, ◌++◌, length, take};
ghost use Rattle.address.specs.Address.{host_of, path_of, fragment_of, deck_of};
ghost use Rattle.address.specs.Resolve.{if_lawful};
ghost use Rattle.address.specs.Meaning.{address_of, answered};

use super::Address;
use crate::fault::Unlawful;
use crate::layout::{Layout, MOST, SCHEME};

/// Writes `part` into `bytes` from `at` on.
fn put(bytes: &mut [u8], at: usize, part: &[u8])
    requires { at + length part.now ≤ length bytes.old }
    ensures { take (at + length part.now) bytes.new ≡ take at bytes.old ++ part.now }
{
    bytes[at..at + part.len()].copy_from_slice(part);
}

impl Address {
    /// The address that `front` and then `back` spell, if it is lawful.
    pub fn join(front: &[u8], back: &[u8]) -> Result<Address, Unlawful>
        ensures { answered result ≡ if_lawful (front.now ++ back.now) }
    {
        let len = front.len() + back.len();
        if len > MOST {
            return Err(Unlawful);
        }
        let mut bytes = [0; MOST];
        put(&mut bytes, 0, front);
        put(&mut bytes, front.len(), back);
        Address::checked(bytes, len)
    }

    /// The address in the first `len` of the bytes, if it is lawful.
    fn checked(bytes: [u8; MOST], len: usize) -> Result<Address, Unlawful>
        requires { len ≤ 128 }
        ensures { answered result ≡ if_lawful (take len bytes) }
    {
        let layout = Layout::of(&bytes[..len]).ok_or(Unlawful)?;
        Ok(Address {
            bytes,
            len,
            layout,
            fragment: len.min(layout.deck + 1),
        })
    }

    /// The address that `bytes` spell, if it is lawful.
    pub fn parse(bytes: &[u8]) -> Result<Address, Unlawful>
        ensures { answered result ≡ if_lawful bytes.now }
    {
        Address::join(&[], bytes)
    }

    /// All of its bytes.
    pub fn as_bytes(&self) -> &[u8]
        ensures { result.now ≡ address_of self.now }
    {
        &self.bytes[..self.len]
    }

    /// What stands between `http://` and the path.
    pub fn host(&self) -> &[u8]
        ensures { result.now ≡ host_of (address_of self.now) }
    {
        &self.bytes[SCHEME.len()..self.layout.path]
    }

    /// The path, from its first `/` to before any `#`.
    pub fn path(&self) -> &[u8]
        ensures { result.now ≡ path_of (address_of self.now) }
    {
        &self.bytes[self.layout.path..self.layout.deck]
    }

    /// What follows `#`: nothing where there is none.
    pub fn fragment(&self) -> &[u8]
        ensures { result.now ≡ fragment_of (address_of self.now) }
    {
        &self.bytes[self.fragment..self.len]
    }

    /// The deck address: what precedes `#`.
    pub fn deck(&self) -> &[u8]
        ensures { result.now ≡ deck_of (address_of self.now) }
    {
        &self.bytes[..self.layout.deck]
    }
}
