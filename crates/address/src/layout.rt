//! Where the parts of an address lie.
ghost use Rattle.std.specs.Prelude.{◌≡◌, ◌≤◌, true, length};
ghost use Rattle.std.specs.List.{prefix_len, list_all};
ghost use Rattle.address.specs.Layout.{allowed, closes, layout_of};
ghost use Rattle.address.specs.Grammar.{Grammar};

/// The most bytes that an address has.
pub const MOST: usize = 128;

/// What every address begins with.
pub const SCHEME: &[u8] = b"http://";

/// The places at which the parts of a lawful address meet.
#[derive(Clone, Copy)]
pub struct Layout {
    /// Where the path begins: after `http://` and the host.
    pub path: usize,
    /// Where the deck address ends: before any `#`.
    pub deck: usize,
}

/// The parts of an address that allow different bytes. A fragment allows those of a path.
#[derive(Clone, Copy)]
pub enum Part {
    Host,
    Path,
}

impl Part {
    /// Whether the part may have this byte.
    fn allows(self, byte: u8) -> bool
        ensures { result ≡ allowed self byte }
    {
        match self {
            Part::Host => matches!(byte, b'a'..=b'z' | b'0'..=b'9' | b'.' | b'-'),
            Part::Path => matches!(byte, 0x21..=0x7E) && byte != b'#',
        }
    }

    /// How many bytes from the start the part may have.
    fn run(self, bytes: &[u8]) -> usize
        ensures run { result ≡ prefix_len (allowed self) bytes.now }
        ensures within { result ≤ length bytes.now }
    {
        bytes.iter().take_while(|byte| self.allows(**byte)).count()
    }

    /// Whether the part may be these bytes.
    fn fills(self, bytes: &[u8]) -> bool
        ensures { result ≡ list_all (allowed self) bytes.now }
    {
        bytes.iter().all(|byte| self.allows(*byte))
    }
}

/// Whether `bytes` may follow a path: there are none, or they are `#` and a fragment.
fn closes_path(bytes: &[u8]) -> bool
    ensures { result ≡ closes bytes.now }
{
    match bytes {
        [] => true,
        [b'#', fragment @ ..] => Part::Path.fills(fragment),
        _ => false,
    }
}

impl Layout {
    /// Where the parts of `bytes` lie, if they are a lawful address.
    pub fn of(bytes: &[u8]) -> Option<Layout>
        ensures value { result ≡ layout_of bytes.now }
        ensures grammar { Grammar }
    {
        if bytes.len() > MOST {
            return None;
        }
        let rest = bytes.strip_prefix(SCHEME)?;
        let host = Part::Host.run(rest);
        let tail = &rest[host..];
        if host == 0 || !tail.starts_with(b"/") {
            return None;
        }
        let path = Part::Path.run(tail);
        closes_path(&tail[path..]).then_some(Layout {
            path: SCHEME.len() + host,
            deck: SCHEME.len() + host + path,
        })
    }
}
