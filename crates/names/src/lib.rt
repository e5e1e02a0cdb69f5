//! Names of variables, and which pairs of a name and a value can be stored.
#![tactic(auto)]

ghost use Rattle.std.specs.Prelude.{◌≡◌};
ghost use Rattle.names.specs.Names.{starts_name, continues_name, all_continue, is_name, storable_name, storable};

/// The longest name that can be stored, in bytes.
pub const MOST_NAME: usize = 16;

/// The longest value, in bytes.
pub const MOST_VALUE: usize = 64;

/// The longest text, in bytes.
pub const MOST_TEXT: usize = 1024;

/// Whether a name may begin with the byte: a letter or an underscore.
pub fn starts_name(b: u8) -> bool
    ensures { result ≡ starts_name b }
{
    matches!(b, b'a'..=b'z' | b'A'..=b'Z' | b'_')
}

/// Whether a name may go on with the byte: a letter, a digit or an underscore.
pub fn continues_name(b: u8) -> bool
    ensures { result ≡ continues_name b }
{
    starts_name(b) || matches!(b, b'0'..=b'9')
}

fn all_continue(bytes: &[u8]) -> bool
    ensures { result ≡ all_continue bytes.now }
{
    bytes.iter().all(|b| continues_name(*b))
}

/// Whether the bytes are a name, of any length.
pub fn is_name(name: &[u8]) -> bool
    ensures { result ≡ is_name name.now }
{
    match name {
        [] => false,
        [first, rest @ ..] => starts_name(*first) && all_continue(rest),
    }
}

/// Whether the bytes are a name of at most 16 bytes.
pub fn is_storable_name(name: &[u8]) -> bool
    ensures { result ≡ storable_name name.now }
{
    is_name(name) && name.len() <= MOST_NAME
}

/// Whether a store can take the pair: a storable name with a value of at most 64 bytes.
pub fn is_storable(name: &[u8], value: &[u8]) -> bool
    ensures { result ≡ storable name.now value.now }
{
    is_storable_name(name) && value.len() <= MOST_VALUE
}
