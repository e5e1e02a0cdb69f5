//! Bytes written as hexadecimal digits.
#![tactic(auto)]

ghost use Rattle.std.specs.Prelude.{◌<◌, IfSome};

use anyhow::anyhow;
use std::alloc::Global;

/// The value of a small hexadecimal digit. (`to_digit` would take capitals too.)
fn digit(b: u8) -> Option<u8>
    ensures { IfSome result (λ n. n < 16) }
{
    match b {
        b'0'..=b'9' => Some(b - b'0'),
        b'a'..=b'f' => Some(b - b'a' + 10),
        _ => None,
    }
}

/// The byte that two digits stand for.
fn byte_of(high: u8, low: u8) -> Option<u8> {
    Some(16 * digit(high)? + digit(low)?)
}

/// Adds the bytes that pairs of digits stand for.
fn add_pairs(out: &mut Vec<u8>, digits: &[u8]) -> anyhow::Result<()> {
    for pair in digits.chunks(2) {
        let [high, low] = pair else {
            return Err(anyhow!("an odd number of digits"));
        };
        // An error is made only where there is one: a `Result<u8, anyhow::Error>` for each digit cost three times the work.
        let Some(byte) = byte_of(*high, *low) else {
            return Err(anyhow!("no hexadecimal digit"));
        };
        out.push(byte)?;
    }
    Ok(())
}

/// Adds one word: digits, or digits, a star and how many times they stand there.
fn add_word(out: &mut Vec<u8>, word: &str) -> anyhow::Result<()> {
    match word.split_once('*') {
        None => add_pairs(out, word.as_bytes()),
        Some((digits, times)) => {
            for _ in 0..times.parse::<u32>()? {
                add_pairs(out, digits.as_bytes())?;
            }
            Ok(())
        }
    }
}

/// The bytes that the words of a text stand for.
pub fn bytes_of(heap: Global, text: &str) -> anyhow::Result<Vec<u8>> {
    let mut out = Vec::new(heap);
    for word in text.split_whitespace() {
        add_word(&mut out, word)?;
    }
    Ok(out)
}
