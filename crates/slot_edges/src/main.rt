//! Runs slot tables at the edges of their limits and prints what they answer.
#![tactic(auto)]

use short_text::Short;
use slots::{Slot, SlotTable};
use std::io;
use store::{Refusal, Store};

/// The longest value.
const LONG: [u8; 64] = [b'z'; 64];

/// The number of a refusal, 0 where there is none.
fn number(answer: Result<(), Refusal>) -> u8 {
    answer.err().map_or(0, Refusal::number)
}

/// A name of 16 bytes with two digits at its end.
fn name(i: u8) -> [u8; 16] {
    let mut name = *b"a_name_of_len_00";
    name[14] = b'0' + i / 10 % 10;
    name[15] = b'0' + i % 10;
    name
}

/// Sets so many names to the longest value, and says how many of them were not refused.
fn fill<S: Store>(store: &mut S, names: u8) -> usize {
    (0..names)
        .filter(|i| store.set(&name(*i), &LONG).is_ok())
        .count()
}

/// The values of two names.
fn two<S: Store>(rt: &impl Print, store: &S, one: &[u8], other: &[u8]) -> io::Result<()> {
    println!(rt;
        "values '{}' '{}'",
        store.value(one).escape_ascii(),
        store.value(other).escape_ascii()
    )
}

/// The limits and the totals, and what fills the store.
fn filled<S: Store>(rt: &impl Print, store: &mut S) -> io::Result<()> {
    println!(rt;
        "limits {} names {} bytes",
        store.most_names(),
        store.most_bytes()
    )?;
    let taken = fill(store, 66);
    println!(rt;
        "of 66 names {taken} set, then {}",
        number(store.set(b"one_more", b"1"))
    )?;
    println!(rt; "count {} bytes {}", store.count(), store.bytes())
}

/// Replaces a value by a shorter and a longer one, unsets a name and sets others.
fn replaced<S: Store>(rt: &impl Print, store: &mut S) -> io::Result<()> {
    let shorter = number(store.set(&name(0), b"short"));
    println!(rt;
        "shorter {shorter}, bytes {}, value {}",
        store.bytes(),
        store.value(&name(0)).escape_ascii()
    )?;
    let longer = number(store.set(&name(0), &LONG));
    println!(rt; "longer {longer}, bytes {}", store.bytes())?;
    let unset = number(store.set(&name(0), b""));
    println!(rt;
        "unset {unset}, count {}, value {}",
        store.count(),
        store.value(&name(0)).len()
    )?;
    let again = number(store.set(&name(0), &LONG));
    println!(rt;
        "again {again}, one more {}, count {}",
        number(store.set(b"one_more", b"1")),
        store.count()
    )
}

/// Pairs that cannot be stored, a name that is the front of another, and a clear.
fn refused<S: Store>(rt: &impl Print, store: &mut S) -> io::Result<()> {
    store.clear();
    println!(rt; "cleared: count {} bytes {}", store.count(), store.bytes())?;
    let digit = number(store.set(b"1a", b"1"));
    let long_name = number(store.set(b"a_name_of_len_017", b"1"));
    let long_value = number(store.set(b"a", &[b'z'; 65]));
    println!(rt; "no name {digit}, 17 bytes {long_name}, value of 65 {long_value}")?;
    let front = number(store.set(b"a", b"1"));
    let longer = number(store.set(b"ab", b"2"));
    println!(rt; "a {front}, ab {longer}")?;
    two(rt, store, b"a", b"ab")?;
    let unset = number(store.set(b"a", b""));
    println!(rt; "a unset {unset}")?;
    two(rt, store, b"a", b"ab")?;
    println!(rt; "count {} bytes {}", store.count(), store.bytes())
}

/// Every edge, over a store that was made just before.
fn edges<S: Store>(rt: &impl Print, store: &mut S) -> io::Result<()> {
    filled(rt, store)?;
    replaced(rt, store)?;
    refused(rt, store)
}

/// A slot as it may lie in memory that was used for something else.
fn junk(text: &[u8; 16], name_len: u8, byte: u8, value_len: u8) -> Slot {
    Slot {
        name: Short {
            bytes: *text,
            len: name_len,
        },
        value: Short {
            bytes: [byte; 64],
            len: value_len,
        },
    }
}

/// What a store over such memory means, and that a name which is unset does not come back.
fn found<S: Store>(rt: &impl Print, store: &mut S) -> io::Result<()> {
    println!(rt;
        "handed over: count {} bytes {}",
        store.count(),
        store.bytes()
    )?;
    two(rt, store, b"t", b"uu")?;
    let past = store.value(b"ttttttttttttttttt").len();
    let whole = store.value(b"tttttttttttttttt").len();
    println!(rt; "t 17 times {past}, 16 times {whole}")?;
    let unset = number(store.set(b"t", b""));
    println!(rt;
        "t unset {unset}: {}, count {}",
        store.value(b"t").escape_ascii(),
        store.count()
    )?;
    let taken = fill(store, 9);
    println!(rt; "of 9 names {taken} set, count {}", store.count())?;
    store.clear();
    println!(rt; "cleared: count {}", store.count())
}

/// A table over memory that nobody cleared.
fn handed_over(rt: &impl Print) -> io::Result<()> {
    let mut memory = [Slot::empty(); 8];
    memory[0] = junk(&[255; 16], 255, 255, 255);
    memory[1] = junk(b"tttttttttttttttt", 1, b'p', 3);
    memory[2] = junk(b"tttttttttttttttt", 1, b'q', 5);
    memory[3] = junk(b"tttttttttttttttt", 200, b'r', 99);
    memory[4] = junk(b"1234567890123456", 4, b's', 9);
    memory[5] = junk(b"uuuuuuuuuuuuuuuu", 2, b'v', 0);
    let mut table = SlotTable::new(&mut memory[0..8]);
    found(rt, &mut table)
}

/// Clearing wipes the slots of the table, and no slot past the 64th.
fn wiped(rt: &impl Print) -> io::Result<()> {
    let mut memory = [junk(b"tttttttttttttttt", 1, b'p', 3); 65];
    let mut table = SlotTable::new(&mut memory[0..65]);
    table.clear();
    let in_table = memory[63].value.bytes[0];
    let past = memory[64].value.bytes[0];
    println!(rt; "cleared: byte {in_table} in the 64th slot, {past} in the 65th")
}

/// A table over so many slots, 65 at most, at every edge.
fn sized(rt: &impl Print, slots: usize) -> io::Result<()> {
    let mut memory = [Slot::empty(); 65];
    let n = slots.min(65);
    println!(rt; "-- {n} slots")?;
    let mut table = SlotTable::new(&mut memory[0..n]);
    edges(rt, &mut table)
}

fn main(rt: HostRuntime) -> io::Result<()> {
    for slots in [0, 1, 63, 64, 65] {
        sized(&rt, slots)?;
    }
    println!(rt; "-- junk")?;
    handed_over(&rt)?;
    wiped(&rt)
}
