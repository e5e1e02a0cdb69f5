//! The pieces of a text: bytes that stand for themselves, and references to variables.
#![tactic(auto)]

ghost use Rattle.std.specs.Prelude.{◌≡◌, ℕ, ◌+◌, ◌-◌, ◌≤◌, [], length, map, drop, MatchOption};
ghost use Rattle.std.specs.Char.{to_ascii_lowercase};
ghost use Rattle.pieces.specs.Words.{name_len, same_word, conversion_of};
ghost use Rattle.pieces.specs.Pieces.{Broken, bracket};
ghost use Rattle.pieces.specs.Reads.{Reads, Bracketed, IsNameAndRest};

use names::{continues_name, starts_name};

/// How a reference wants its value turned.
#[derive(Clone, Copy, PartialEq, Eq, Debug)]
pub enum Conversion {
    Escape,
    Noesc,
    Unesc,
}

/// One piece of a text.
#[derive(Clone, Copy)]
pub enum Piece<'a> {
    /// A byte that stands for itself; `$$` gives a dollar sign.
    Literal(u8),
    /// A reference to a name, with the conversion if one is written.
    Reference {
        name: &'a [u8],
        conversion: Option<Conversion>,
    },
    /// A dollar sign that begins nothing.
    Broken,
}

/// How many bytes the longest name at the front has, 0 where none begins there.
fn front_name_len(text: &[u8]) -> usize
    ensures value { result ≡ name_len text.now }
    ensures within { result ≤ length text.now }
{
    match text {
        [first, ..] if starts_name(*first) => text
            .iter()
            .position(|b| !continues_name(*b))
            .unwrap_or(text.len()),
        _ => 0,
    }
}

/// How many bytes the longest name at `from` has, 0 where none begins there: a name has one byte at least.
pub fn name_len(text: &[u8], from: usize) -> usize
    ensures value { result ≡ name_len (drop from text.now) }
    ensures within { result ≤ length text.now - from }
{
    match text.get(from..) {
        Some(rest) => front_name_len(rest),
        None => 0,
    }
}

/// The longest name that the text begins with, and what follows it.
fn split_name(text: &[u8]) -> Option<(&[u8], &[u8])>
    ensures { MatchOption result (name_len text.now ≡ 0) (λ r. IsNameAndRest text.now r.0.now r.1.now) }
{
    match front_name_len(text) {
        0 => None,
        len => Some(text.split_at(len)),
    }
}

/// Whether the bytes are the word, each letter in either case.
fn is_word(text: &[u8], word: &[u8]) -> bool
    requires { map to_ascii_lowercase word.now ≡ word.now }
    ensures { result ≡ same_word text.now word.now }
{
    text.eq_ignore_ascii_case(word)
}

/// The conversion that a word means.
pub fn conversion_of(word: &[u8]) -> Option<Conversion>
    ensures { result ≡ conversion_of word.now }
{
    if is_word(word, b"e") || is_word(word, b"escape") {
        Some(Conversion::Escape)
    } else if is_word(word, b"n") || is_word(word, b"noesc") {
        Some(Conversion::Noesc)
    } else if is_word(word, b"u") || is_word(word, b"unesc") {
        Some(Conversion::Unesc)
    } else {
        None
    }
}

/// The reference whose `$(` stands before the text, and what follows its `)`.
fn in_brackets(text: &[u8]) -> Option<(Piece<'_>, &[u8])>
    ensures { MatchOption result (bracket text.now (name_len text.now) ≡ Broken) (λ r. Bracketed text.now (bracket text.now (name_len text.now)) r.0 r.1.now) }
{
    let (name, rest) = split_name(text)?;
    match rest {
        [b')', rest @ ..] => Some((
            Piece::Reference {
                name,
                conversion: None,
            },
            rest,
        )),
        [b':', rest @ ..] => {
            let (word, rest) = split_name(rest)?;
            let conversion = Some(conversion_of(word)?);
            let [b')', rest @ ..] = rest else {
                return None;
            };
            Some((Piece::Reference { name, conversion }, rest))
        }
        _ => None,
    }
}

/// The first piece of a text, and what follows it; none where the text is empty.
// Inlined, so that a byte which stands for itself costs neither a call nor the piece in memory.
#[inline(always)]
pub fn first_piece(text: &[u8]) -> Option<(Piece<'_>, &[u8])>
    ensures { MatchOption result (text.now ≡ []) (λ r. Reads text.now r.0 r.1.now) }
{
    match text {
        [] => None,
        [b'$', b'$', rest @ ..] => Some((Piece::Literal(b'$'), rest)),
        [b'$', b'(', rest @ ..] => Some(in_brackets(rest).unwrap_or((Piece::Broken, &text[1..]))),
        [b'$', rest @ ..] => match split_name(rest) {
            None => Some((Piece::Broken, rest)),
            Some((name, rest)) => Some((
                Piece::Reference {
                    name,
                    conversion: None,
                },
                rest,
            )),
        },
        [byte, rest @ ..] => Some((Piece::Literal(*byte), rest)),
    }
}
