//! The kinds of a reference.
ghost use Rattle.std.specs.Prelude.{◌≡◌, ◌==◌, ◌||◌, find};
ghost use Rattle.address.specs.Resolve.{is_delimiter, names_scheme, kind_of};

use crate::layout::SCHEME;

/// What a reference is, by how it begins.
#[derive(Clone, Copy, PartialEq, Eq, Debug)]
pub enum Kind {
    /// Empty, or begins with `#`: a place in the current deck.
    SameDeck,
    /// Begins with `http://`: an address of its own.
    Absolute,
    /// Begins with `//`: refused.
    NetPath,
    /// Begins with a single `/`: a path on the current host.
    AbsolutePath,
    /// A colon stands before any `/`, `?` or `#`: refused.
    OtherScheme,
    /// Any other: a path that starts at the current directory.
    RelativePath,
}

impl Kind {
    /// Which kind of reference it is.
    #[tactic(auto, using(crate::proofs::Schemes::same_deck, crate::proofs::Schemes::net_path, crate::proofs::Schemes::absolute_path))]
    pub fn of(reference: &[u8]) -> Kind
        ensures { result ≡ kind_of reference.now }
    {
        match reference {
            [] | [b'#', ..] => Kind::SameDeck,
            [b'/', b'/', ..] => Kind::NetPath,
            [b'/', ..] => Kind::AbsolutePath,
            [_, ..] if reference.starts_with(SCHEME) => Kind::Absolute,
            [_, ..] if names_scheme(reference) => Kind::OtherScheme,
            [_, ..] => Kind::RelativePath,
        }
    }
}

/// Whether a colon stands before any `/`, `?` or `#`.
fn names_scheme(reference: &[u8]) -> bool
    ensures { result ≡ names_scheme reference.now }
{
    scheme_end(reference) == Some(b':')
}

/// The first byte that ends what may be a scheme.
fn scheme_end(reference: &[u8]) -> Option<u8>
    ensures { result ≡ find (λ byte. byte == 58 || is_delimiter byte) reference.now }
{
    reference.iter().copied().find(|byte| ends_scheme(*byte))
}

/// Whether the byte ends what may be a scheme: a colon, or `/`, `?` or `#`.
fn ends_scheme(byte: u8) -> bool
    ensures { result ≡ (byte == 58 || is_delimiter byte) }
{
    matches!(byte, b':' | b'/' | b'?' | b'#')
}
