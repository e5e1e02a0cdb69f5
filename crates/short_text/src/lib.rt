//! Texts of a few bytes, each in memory of its own with its length beside it.
#![tactic(auto)]

ghost use Rattle.std.specs.Prelude.{◌≡◌, ◌≤◌, min, [], length};
ghost use Rattle.short_text.specs.Texts.{text_of, short_of};

/// A text of at most `N` bytes. Lent memory may hold any length: one over `N` counts as `N`.
#[derive(Clone, Copy)]
pub struct Short<const N: usize> {
    // No heap: the bytes lie where the text does, with the length beside them.
    pub bytes: [u8; N],
    pub len: u8,
}

impl<const N: usize> Short<N> {
    /// The text with nothing in it: every byte is zero.
    pub fn empty() -> Self
        ensures { result ≡ short_of N [] }
    {
        Short {
            bytes: [0; N],
            len: 0,
        }
    }

    /// The text of some bytes, with zeros after them.
    pub fn of(text: &[u8]) -> Self
        requires { length text.now ≤ min N 255 }
        ensures { result ≡ short_of N text.now }
    {
        let mut bytes = [0; N];
        bytes[..text.len()].copy_from_slice(text);
        Short {
            bytes,
            len: text.len() as u8,
        }
    }

    /// The bytes of the text.
    pub fn as_bytes(&self) -> &[u8]
        ensures { result.now ≡ text_of N self.now }
    {
        let len = (self.len as usize).min(N);
        &self.bytes[..len]
    }
}
