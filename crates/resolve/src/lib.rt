//! What a reference means on a current address.
//!
//! A reference is of one of six kinds, told by how it begins. Two of them are refused; each other kind is joined to a front of the
//! current address, and what comes out has to be a lawful address.
#![tactic(auto)]

ghost use Rattle.std.specs.Prelude.{◌≡◌, ◌≤◌, ◌++◌, length};
ghost use Rattle.address.specs.Address.{scheme, host_of, path_of};
ghost use Rattle.address.specs.Resolve.{kind_of, directory_of, resolve};
ghost use Rattle.address.specs.Meaning.{address_of, answered};
ghost use Rattle.resolve.specs.Laws.{ResolutionLaws};
ghost use Rattle.resolve.specs.Examples.{References};

use address::{Address, Kind, MOST, Unlawful};

/// How many bytes of the path its directory has: the path cut before any `?`, and then after its last `/`.
fn directory_len(path: &[u8]) -> usize
    ensures value { result ≡ length (directory_of path.now) }
    ensures within { result ≤ length path.now }
{
    let mut len = 0;
    for (i, byte) in path.iter().enumerate() {
        match *byte {
            b'?' => return len,
            b'/' => len = i + 1,
            _ => {}
        }
    }
    len
}

/// `http://` and the host of the current address.
fn root(current: &Address) -> &[u8]
    ensures { result.now ≡ scheme ++ host_of (address_of current.now) }
{
    &current.as_bytes()[..7 + current.host().len()]
}

/// `http://`, the host and the directory of the current address.
fn directory(current: &Address) -> &[u8]
    ensures { result.now ≡ scheme ++ (host_of (address_of current.now) ++ directory_of (path_of (address_of current.now))) }
{
    &current.as_bytes()[..7 + current.host().len() + directory_len(current.path())]
}

/// What the reference makes with the current address, where `kind` is its kind.
fn join_as(kind: Kind, current: &Address, reference: &[u8]) -> Result<Address, Unlawful>
    ensures meaning { kind ≡ kind_of reference.now → answered result ≡ resolve (address_of current.now) reference.now }
    ensures laws { ResolutionLaws }
    ensures examples { References }
{
    match kind {
        Kind::SameDeck => Address::join(current.deck(), reference),
        Kind::Absolute => Address::parse(reference),
        Kind::AbsolutePath => Address::join(root(current), reference),
        Kind::RelativePath => Address::join(directory(current), reference),
        Kind::NetPath | Kind::OtherScheme => Err(Unlawful),
    }
}

/// The address that the reference means where `current` is the current address, if it is lawful.
pub fn resolve(current: &Address, reference: &[u8]) -> Result<Address, Unlawful>
    ensures meaning { answered result ≡ resolve (address_of current.now) reference.now }
    ensures laws { ResolutionLaws }
    ensures examples { References }
{
    if reference.len() > MOST {
        return Err(Unlawful);
    }
    join_as(Kind::of(reference), current, reference)
}
