//! The conversions of a value: escape, unescape and plain copy, each into any sink of bytes.
#![tactic(auto)]

ghost use Rattle.std.specs.Prelude.{◌≡◌, ℕ, ◌+◌, ◌*◌, ◌<◌, ◌≤◌, true, ◌&&◌, length};
ghost use Rattle.std.proofs.lemmas.List.Edits.{sets};
ghost use Rattle.convert.specs.Escape.{kept, upper_digit, escape};
ghost use Rattle.convert.specs.Unescape.{is_hex, hex_value, unescape};

mod sink;

pub use sink::{Counter, Sink, Writer};

fn is_kept(b: u8) -> bool
    ensures { result ≡ kept b }
{
    match b {
        b'a'..=b'z' | b'A'..=b'Z' | b'0'..=b'9' => true,
        b'\''..=b'*' | b'-'..=b'.' | b'_' | b'!' | b'~' => true,
        _ => false,
    }
}

fn upper_digit(n: u8) -> u8
    requires { n < 16 }
    ensures { result ≡ upper_digit n }
{
    b"0123456789ABCDEF"[usize::from(n)]
}

/// Sends the escaped value.
pub fn escape<S: Sink>(value: &[u8], sink: &mut S)
    requires { S.fits sink.old (length (escape value.now)) }
    ensures { S.takes sink.old (escape value.now) sink.new }
{
    for b in value {
        if is_kept(*b) {
            sink.put(*b);
        } else {
            sink.put(b'%');
            sink.put(upper_digit(*b / 16));
            sink.put(upper_digit(*b % 16));
        }
    }
}

fn is_hex(b: u8) -> bool
    ensures { result ≡ is_hex b }
{
    b.is_ascii_hexdigit()
}

fn are_hex(hi: u8, lo: u8) -> bool
    ensures { result ≡ (is_hex hi && is_hex lo) }
{
    is_hex(hi) && is_hex(lo)
}

// The library's `to_digit` would answer an option, where the pattern has already asked.
fn hex_value(b: u8) -> u8
    requires { is_hex b ≡ true }
    ensures value { result ≡ hex_value b }
    ensures small { result < 16 }
{
    if b <= b'9' {
        b - b'0'
    } else if b <= b'F' {
        b - b'A' + 10
    } else {
        b - b'a' + 10
    }
}

/// Sends the unescaped value.
pub fn unescape<S: Sink>(value: &[u8], sink: &mut S)
    requires { S.fits sink.old (length (unescape value.now)) }
    ensures { S.takes sink.old (unescape value.now) sink.new }
{
    let mut rest = value;
    loop {
        match rest {
            [] => return,
            [b'%', hi, lo, tail @ ..] if are_hex(*hi, *lo) => {
                sink.put(16 * hex_value(*hi) + hex_value(*lo));
                rest = tail;
            }
            [b, tail @ ..] => {
                sink.put(*b);
                rest = tail;
            }
        }
    }
}

/// Sends the value as it is.
pub fn copy<S: Sink>(value: &[u8], sink: &mut S)
    requires { S.fits sink.old (length value.now) }
    ensures { S.takes sink.old value.now sink.new }
{
    sink.put_all(value);
}
