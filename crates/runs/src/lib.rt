//! The packed run: variables as entries one after another in plain bytes, in ascending order of the names.
//!
//! An entry is the value's length, the name's length, the name, the value. A run is read from the front up
//! to the first entry that does not count, so any bytes at all mean some variables. A value length of 0
//! ends a run.
#![tactic(auto)]

ghost use Rattle.std.specs.Prelude.{◌≡◌, ℕ, ◌+◌, ◌-◌, ◌<◌, ◌≤◌, true, false, [], ◌∷◌, ◌++◌, length, take, drop, slice_index, MatchOption};
ghost use Rattle.std.specs.Iterator.{YieldsFirstBy, item_count};
ghost use Rattle.names.specs.Names.{storable};
ghost use Rattle.store.specs.Vars.{look, assign};
ghost use Rattle.store.specs.Limits.{within};
ghost use Rattle.runs.specs.Entry.{counts};
ghost use Rattle.runs.specs.Entries.{pair_of, left, IsFirst};
ghost use Rattle.runs.specs.Run.{parse, reads, room_of, limits_of};
ghost use Rattle.runs.specs.Spot.{Found, entry_len};

use names::is_storable;
use std::ops::Range;
use store::{Totals, precedes};

/// How many names a run can have.
pub const MOST_NAMES: usize = 32;

/// How many bytes of names and values a run can have, however long its memory is.
pub const MOST_BYTES: usize = 4096;

/// How many bytes of memory the lengths in a full run take: two for each name.
pub const LENGTHS: usize = 64;

/// How many bytes the two lengths of an entry take.
const HEAD: usize = 2;

/// What one pass over a run finds of a name.
#[derive(Clone, Copy)]
pub struct Spot {
    /// How many bytes stand before its entry, or before where it would stand.
    pub place: usize,
    /// How many bytes its value has, if the name is set.
    pub value: Option<usize>,
    /// How many names are set, and how many bytes they and their values have.
    pub totals: Totals,
}

impl Spot {
    /// How many bytes the entry of the name has that was found, none where it is not set.
    fn entry_len(self, name: &[u8]) -> usize
        requires { entry_len name.now self.value < 65536 }
        ensures { result ≡ entry_len name.now self.value }
    {
        match self.value {
            Some(len) => HEAD + (name.len() + len),
            None => 0,
        }
    }
}

/// An entry that counts: a name and its value.
#[derive(Clone, Copy)]
struct Entry<'r> {
    name: &'r [u8],
    value: &'r [u8],
}

/// The entries that are left, up to the first that does not count.
#[derive(Drop)]
struct Entries<'r> {
    /// The bytes behind the last entry.
    rest: &'r [u8],
    /// The name of the last entry.
    last: &'r [u8],
    /// How many more names there may be.
    names: usize,
    /// For how many more bytes of names and values there is room.
    room: usize,
}

/// The entry that the bytes begin with, if it counts.
fn first_entry<'r>(bytes: &'r [u8], room: usize, last: &[u8]) -> Option<Entry<'r>>
    ensures { MatchOption result (counts room last.now bytes.now ≡ false) (λ e. IsFirst room last.now bytes.now e) }
{
    let [value_len, name_len, texts @ ..] = bytes else {
        return None;
    };
    let v = usize::from(*value_len);
    let n = usize::from(*name_len);
    if v == 0 || n + v > room || n + v > texts.len() {
        return None;
    }
    let name = &texts[..n];
    let value = &texts[n..n + v];
    if is_storable(name, value) && precedes(last, name) {
        Some(Entry { name, value })
    } else {
        None
    }
}

impl<'r> Iterator for Entries<'r> {
    type Item = Entry<'r>;

    ghost next_gives = { YieldsFirstBy pair_of left };

    ghost remaining = { item_count left };

    fn next(&mut self) -> Option<Entry<'r>> {
        if self.names == 0 {
            return None;
        }
        let entry = first_entry(self.rest, self.room, self.last)?;
        let taken = entry.name.len() + entry.value.len();
        self.rest = &self.rest[HEAD + taken..];
        self.last = entry.name;
        self.names -= 1;
        self.room -= taken;
        Some(entry)
    }
}

/// How many bytes of names and values there is room for.
pub fn room_of(run: &[u8]) -> usize
    ensures { result ≡ room_of run.now }
{
    run.len().saturating_sub(LENGTHS).min(MOST_BYTES)
}

/// One pass over the entries.
fn scan(run: &[u8], room: usize, name: &[u8]) -> Spot
    requires { room ≤ 4096 }
    ensures { Found (parse 32 room [] run.now) name.now result }
{
    let entries = Entries {
        rest: run,
        last: &run[..0],
        names: MOST_NAMES,
        room,
    };
    let mut place = 0;
    let mut value = None;
    let mut totals = Totals { names: 0, bytes: 0 };
    for entry in entries {
        let bytes = entry.name.len() + entry.value.len();
        if precedes(entry.name, name) {
            place += HEAD + bytes;
        } else if entry.name == name {
            value = Some(entry.value.len());
        }
        totals.names += 1;
        totals.bytes += bytes;
    }
    Spot {
        place,
        value,
        totals,
    }
}

/// Where the entry of a name stands or would stand, and the totals.
pub fn find(run: &[u8], name: &[u8]) -> Spot
    ensures { Found (reads run.now) name.now result }
{
    scan(run, room_of(run), name)
}

/// The value of a name, empty where it is not set.
pub fn value_at<'r>(run: &'r [u8], name: &[u8]) -> &'r [u8]
    ensures { result.now ≡ look (reads run.now) name.now }
{
    let spot = find(run, name);
    match spot.value {
        Some(len) => {
            let start = spot.place + HEAD + name.len();
            &run[start..start + len]
        }
        None => &run[..0],
    }
}

/// Moves the tail of a run so that it begins at `to`, and ends the run after it.
fn move_tail(run: &mut [u8], tail: Range<usize>, to: usize)
    requires order { tail.start ≤ tail.end }
    requires within { tail.end ≤ length run.old }
    requires fits { to + (tail.end - tail.start) ≤ length run.old }
    ensures head { take to run.new ≡ take to run.old }
    ensures tail { take (tail.end - tail.start) (drop to run.new) ≡ take (tail.end - tail.start) (drop tail.start run.old) }
    ensures stop { slice_index run.new (to + (tail.end - tail.start)) ≡ 0 }
{
    let stop = to + (tail.end - tail.start);
    run.copy_within(tail, to);
    // The library does not say what a slice holds after `get_mut`.
    if stop < run.len() {
        run[stop] = 0;
    }
}

/// Writes the entry of a pair over the bytes at `at`.
fn write_entry(run: &mut [u8], at: usize, name: &[u8], value: &[u8])
    requires name { length name.now ≤ 16 }
    requires value { length value.now ≤ 64 }
    requires fits { at + (2 + (length name.now + length value.now)) ≤ length run.old }
    ensures entry { take (at + (2 + (length name.now + length value.now))) run.new ≡ take at run.old ++ (length value.now ∷ length name.now ∷ (name.now ++ value.now)) }
    ensures tail { drop (at + (2 + (length name.now + length value.now))) run.new ≡ drop (at + (2 + (length name.now + length value.now))) run.old }
{
    let start = at + HEAD;
    let end = start + name.len();
    run[at] = value.len() as u8;
    run[at + 1] = name.len() as u8;
    run[start..end].copy_from_slice(name);
    run[end..end + value.len()].copy_from_slice(value);
}

/// Sets a pair: takes the old entry of the name out and puts the new one in, none for an empty value.
///
/// What stands behind the entry is moved once. The caller has found the spot, and the outcome is within
/// the limits.
pub fn rewrite(run: &mut [u8], spot: Spot, name: &[u8], value: &[u8])
    requires spot { Found (reads run.old) name.now spot }
    requires pair { storable name.now value.now ≡ true }
    requires fits { within (limits_of run.old) (assign (reads run.old) name.now value.now) ≡ true }
    ensures { reads run.new ≡ assign (reads run.old) name.now value.now }
{
    let end = HEAD * spot.totals.names + spot.totals.bytes;
    let tail = spot.place + spot.entry_len(name)..end;
    if value.is_empty() {
        move_tail(run, tail, spot.place);
    } else {
        move_tail(run, tail, spot.place + (HEAD + (name.len() + value.len())));
        write_entry(run, spot.place, name, value);
    }
}

/// Ends the run at its front, so that no name is set.
pub fn wipe(run: &mut [u8])
    ensures { reads run.new ≡ [] }
{
    if let Some(first) = run.first_mut() {
        *first = 0;
    }
}
