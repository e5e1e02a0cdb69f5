//! The words of a script line, bytes as a script writes them, and the buffers that it lends.
#![tactic(auto)]

use arrayvec::ArrayString;
use std::alloc::{AllocError, Global};
use std::fmt::{self, Write as _};
use std::mem;
use thiserror::Error;

/// Why a line cannot be read.
#[derive(Debug, Drop, Error)]
pub enum ScriptError {
    /// A quote that is not closed.
    #[error("a quote is not closed")]
    OpenQuote,
    /// A backslash that begins none of `\xHH`, `\\` and `\"`.
    #[error("a backslash begins none of \\xHH, \\\\ and \\\"")]
    BadEscape,
    /// Something that stands directly behind a closed quote.
    #[error("no space behind a closed quote")]
    NoSpace,
    /// There is no memory for it.
    #[error("out of memory")]
    Memory(#[from(alloc)] AllocError),
}

/// A command of a script: its first word, and the words behind it.
#[derive(Clone, Copy)]
pub struct Command<'a> {
    pub verb: &'a [u8],
    pub args: &'a [Vec<u8>],
}

/// Where in a line the reader is.
#[derive(Clone, Copy)]
enum Place {
    Gap,
    Bare,
    Quoted,
    Closed,
}

/// What the reader has seen of an escape that has begun.
#[derive(Clone, Copy)]
enum Escape {
    Backslash,
    Marked,
    High(u8),
}

/// Reads a line byte by byte.
#[derive(Drop)]
struct Reader {
    heap: Global,
    words: Vec<Vec<u8>>,
    word: Vec<u8>,
    place: Place,
    escape: Option<Escape>,
}

fn hex_value(b: u8) -> Result<u8, ScriptError> {
    let digit = char::from(b).to_digit(16).ok_or(ScriptError::BadEscape)?;
    Ok(digit as u8)
}

impl Reader {
    fn close_word(&mut self) -> Result<(), ScriptError> {
        let word = mem::replace(&mut self.word, Vec::new(self.heap));
        self.words.push(word)?;
        Ok(())
    }

    /// One byte more of an escape that has begun, and what of it is seen then, unless it has ended.
    fn in_escape(&mut self, seen: Escape, b: u8) -> Result<Option<Escape>, ScriptError> {
        match (seen, b) {
            (Escape::Backslash, b'x') => return Ok(Some(Escape::Marked)),
            (Escape::Backslash, b'\\' | b'"') => self.word.push(b)?,
            (Escape::Backslash, _) => return Err(ScriptError::BadEscape),
            (Escape::Marked, _) => return Ok(Some(Escape::High(hex_value(b)?))),
            (Escape::High(high), _) => self.word.push(high << 4 | hex_value(b)?)?,
        }
        Ok(None)
    }

    fn take(&mut self, b: u8) -> Result<(), ScriptError> {
        if let Some(seen) = self.escape {
            self.escape = self.in_escape(seen, b)?;
            return Ok(());
        }
        match (self.place, b) {
            (Place::Gap, b' ') => {}
            (Place::Gap, b'"') => self.place = Place::Quoted,
            (Place::Closed, b' ') => self.place = Place::Gap,
            (Place::Closed, _) => return Err(ScriptError::NoSpace),
            (Place::Quoted, b'"') => {
                self.close_word()?;
                self.place = Place::Closed;
            }
            (Place::Bare, b' ') => {
                self.close_word()?;
                self.place = Place::Gap;
            }
            (place, _) => {
                if matches!(place, Place::Gap) {
                    self.place = Place::Bare;
                }
                if b == b'\\' {
                    self.escape = Some(Escape::Backslash);
                } else {
                    self.word.push(b)?;
                }
            }
        }
        Ok(())
    }

    fn finish(mut self) -> Result<Vec<Vec<u8>>, ScriptError> {
        if self.escape.is_some() {
            return Err(ScriptError::BadEscape);
        }
        match self.place {
            Place::Quoted => return Err(ScriptError::OpenQuote),
            Place::Bare => self.close_word()?,
            Place::Gap | Place::Closed => {}
        }
        let Reader { words, .. } = self;
        Ok(words)
    }
}

/// The words of a line: separated by spaces, or in quotes, with `\xHH` for any byte.
pub fn words(heap: Global, line: &[u8]) -> Result<Vec<Vec<u8>>, ScriptError> {
    let mut reader = Reader {
        heap,
        words: Vec::new(heap),
        word: Vec::new(heap),
        place: Place::Gap,
        escape: None,
    };
    for b in line {
        reader.take(*b)?;
    }
    reader.finish()
}

/// Bytes in quotes, as a script can read them again.
#[derive(Clone, Copy)]
pub struct Quoted<'a>(pub &'a [u8]);

/// So many bytes are escaped at once, each as four at most.
const AT_ONCE: usize = 32;

const HEX_DIGITS: [u8; 16] = *b"0123456789ABCDEF";

/// Adds a byte as it stands in quotes.
fn add_escaped(text: &mut ArrayString<128>, b: u8) -> fmt::Result {
    match b {
        b'"' => text.write_str("\\\""),
        b'\\' => text.write_str("\\\\"),
        0x20..=0x7E => text.write_char(char::from(b)),
        _ => {
            text.write_str("\\x")?;
            text.write_char(char::from(HEX_DIGITS[usize::from(b / 16)]))?;
            text.write_char(char::from(HEX_DIGITS[usize::from(b % 16)]))
        }
    }
}

impl fmt::Display for Quoted<'_> {
    fn fmt<W: fmt::Write>(&self, f: &mut fmt::Formatter<W>) -> fmt::Result {
        f.write_str("\"")?;
        for bytes in self.0.chunks(AT_ONCE) {
            let mut text = ArrayString::new();
            for b in bytes {
                add_escaped(&mut text, *b)?;
            }
            f.write_str(&text)?;
        }
        f.write_str("\"")
    }
}

/// A decimal number of a word. A sign, which the library's parse would take, makes it none.
pub fn number(word: &[u8]) -> Option<usize> {
    if !word.iter().all(|b| b.is_ascii_digit()) {
        return None;
    }
    std::str::from_utf8(word).ok()?.parse().ok()
}

/// The largest buffer or memory that a script may ask for.
const MOST_SIZE: usize = 100_000;

/// A size in a script: a number up to 100,000.
pub fn size_of(word: &[u8]) -> Option<usize> {
    number(word).filter(|n| *n <= MOST_SIZE)
}

/// A number that fits a byte.
pub fn byte_of(word: &[u8]) -> Option<u8> {
    u8::try_from(number(word)?).ok()
}

/// A buffer of the size, each byte a dot, so that what a call leaves alone can be seen.
pub fn buffer(heap: Global, size: usize) -> Result<Vec<u8>, AllocError> {
    vec![in heap; b'.'; size]
}

/// A buffer whose first bytes a call wrote, that many; where all others are dots that it left alone, they are counted.
#[derive(Clone, Copy)]
pub struct Lent<'a> {
    pub buf: &'a [u8],
    pub written: usize,
}

impl fmt::Display for Lent<'_> {
    fn fmt<W: fmt::Write>(&self, f: &mut fmt::Formatter<W>) -> fmt::Result {
        let (front, rest) = self.buf.split_at(self.written.min(self.buf.len()));
        if rest.iter().all(|b| *b == b'.') {
            write!(f, "{} and {} dots", Quoted(front), rest.len())
        } else {
            write!(f, "{}", Quoted(self.buf))
        }
    }
}
