//! Where bytes go: a count of them, or lent memory.

ghost use Rattle.std.specs.Prelude.{◌≡◌, ℕ, ◌+◌, ◌<◌, ◌≤◌, [], ◌∷◌, length};
ghost use Rattle.names.specs.Names.{Bytes};
ghost use Rattle.convert.specs.SinkLaws.{SinkLaws};

/// Takes bytes, one after another.
pub trait Sink {
    // The sink before and after it took the bytes.
    ghost takes: { Self → Bytes → Self → Type 0 };

    // It has room for so many bytes more.
    ghost fits: { Self → ℕ → Type 0 };

    fn put(&mut self, byte: u8)
        requires { fits self.old 1 }
        ensures { takes self.old (byte ∷ []) self.new };

    // The bytes, one after another: a put for each, where a sink has no faster body of its own.
    fn put_all(&mut self, bytes: &[u8])
        requires { fits self.old (length bytes.now) }
        ensures { takes self.old bytes.now self.new }
    {
        for byte in bytes {
            self.put(*byte);
        }
    }

    ghost laws: { SinkLaws takes fits };
}

/// Counts the bytes, up to the largest number.
#[derive(Clone, Copy)]
pub struct Counter {
    pub count: usize,
}

impl Counter {
    pub fn new() -> Counter
        ensures { result.count ≡ 0 }
    {
        Counter { count: 0 }
    }
}

impl Sink for Counter {
    ghost use Rattle.convert.specs.Counting.{Counts, counter-laws};
    ghost use Rattle.std.specs.Prelude.{⊤};

    ghost takes = { Counts };

    ghost fits = { λ _ _. ⊤ };

    ghost laws = { counter-laws };

    fn put(&mut self, byte: u8) {
        self.count = self.count.saturating_add(1);
    }

    fn put_all(&mut self, bytes: &[u8]) {
        self.count = self.count.saturating_add(bytes.len());
    }
}

/// Writes the bytes into lent memory, from a place on.
#[derive(Drop)]
pub struct Writer<'a> {
    pub buf: &'a mut [u8],
    pub at: usize,
}

impl<'a> Writer<'a> {
    /// A writer to the front of the memory.
    pub fn new(buf: &'a mut [u8]) -> Writer<'a>
        ensures same_reference { result.buf.ghost_name ≡ buf.entry.ghost_name }
        ensures bytes { result.buf.now ≡ buf.old }
        ensures at { result.at ≡ 0 }
    {
        Writer { buf, at: 0 }
    }
}

impl<'a> Sink for Writer<'a> {
    ghost use Rattle.convert.specs.Writing.{Writes, HasRoom, writer-laws};

    ghost takes = { Writes };

    ghost fits = { HasRoom };

    ghost laws = { writer-laws };

    fn put(&mut self, byte: u8) {
        self.buf[self.at] = byte;
        self.at += 1;
    }

    fn put_all(&mut self, bytes: &[u8]) {
        let end = self.at + bytes.len();
        self.buf[self.at..end].copy_from_slice(bytes);
        self.at = end;
    }
}

#[cfg(test)]
mod tests {
    use super::*;
    use crate::{copy, escape, unescape};

    /// A sink that takes a byte, and no more: the last eight that came, and how many it took.
    #[derive(Clone, Copy)]
    struct Last {
        eight: u64,
        taken: usize,
    }

    impl Sink for Last {
        ghost use Rattle.std.specs.Prelude.{⊤};

        ghost takes = { λ _ _ _. ⊤ };

        ghost fits = { λ _ _. ⊤ };

        ghost laws = { record { none = λ _. tt; more = λ _ _ _ _ _ _ _. tt; fewer = λ _ _ _ _. tt; left = λ _ _ _ _ _ _. tt } };

        fn put(&mut self, byte: u8) {
            self.eight = self.eight << 8 | u64::from(byte);
            self.taken = self.taken.saturating_add(1);
        }
    }

    #[test]
    fn a_sink_of_single_bytes_takes_many(rt: HostRuntime) {
        let mut last = Last { eight: 0, taken: 0 };
        last.put_all(b"ab");
        assert_eq!(rt; last.eight.to_be_bytes(), *b"\0\0\0\0\0\0ab");
        last.put_all(b"");
        copy(b"cde", &mut last);
        escape(b"f ", &mut last);
        unescape(b"%41", &mut last);
        assert_eq!(rt; last.eight.to_be_bytes(), *b"cdef%20A");
        assert_eq!(rt; last.taken, 10);
    }
}
