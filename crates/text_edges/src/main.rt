//! Texts at their edges: each case is filled into a buffer just long enough and into one a byte short, and
//! compared with what the rules say. Prints every case that differs, and how many there were.
#![tactic(auto)]

use packed::PackedRun;
use store::Store;
use text::Mode::{self, Address, Plain};
use text::{TextFault, fill};
use variables::Variables;

/// A text, and what filling it gives where there is room.
#[derive(Clone, Copy)]
struct Case {
    mode: Mode,
    text: &'static [u8],
    expected: Result<&'static [u8], TextFault>,
}

fn fills(mode: Mode, text: &'static [u8], bytes: &'static [u8]) -> Case {
    Case {
        mode,
        text,
        expected: Ok(bytes),
    }
}

fn breaks(text: &'static [u8], place: usize) -> Case {
    Case {
        mode: Plain,
        text,
        expected: Err(TextFault::Broken(place)),
    }
}

/// Sets a variable of the table's values; a refusal would show in the cases.
fn give(store: &mut PackedRun<'_>, name: &[u8], value: &[u8]) {
    let _ = store.set(name, value);
}

/// The bytes past what was written are as they were.
fn untouched(buf: &[u8], from: usize) -> bool {
    buf.iter().skip(from).all(|b| *b == b'.')
}

/// Whether a filling into this buffer, all dots, comes out as expected.
fn holds(case: &Case, values: &Variables<'_, PackedRun<'_>>, buf: &mut [u8]) -> bool {
    let answer = fill(case.text, values, case.mode, buf);
    match (case.expected, answer) {
        (Ok(bytes), Ok(n)) => n == bytes.len() && buf.starts_with(bytes) && untouched(buf, n),
        (Ok(bytes), Err(TextFault::ShortBuffer)) => buf.len() < bytes.len() && untouched(buf, 0),
        (Err(expected), Err(fault)) => fault == expected && untouched(buf, 0),
        _ => false,
    }
}

/// Works every case twice; the length is at hand from what is expected.
fn work(
    rt: &HostRuntime,
    group: &str,
    cases: &[Case],
    values: &Variables<'_, PackedRun<'_>>,
) -> anyhow::Result<()> {
    let heap = rt.alloc();
    let mut differ: usize = 0;
    for (i, case) in cases.iter().enumerate() {
        let room = case.expected.map_or(8, |bytes| bytes.len());
        for size in [room, room.saturating_sub(1), room.saturating_add(3)] {
            let mut buf = vec![in heap; b'.'; size]?;
            if !holds(case, values, buf.as_mut_slice()) {
                println!(rt; "{group}, case {i}, differs in a buffer of {size}")?;
                differ = differ.saturating_add(1);
            }
        }
    }
    let count = cases.len();
    println!(rt; "{group}: {count} cases, {differ} differ")?;
    Ok(())
}

fn references() -> [Case; 16] {
    [
        fills(Plain, b"", b""),
        fills(Plain, b"at $(t) C", b"at -18.5 C"),
        fills(Plain, b"$t", b"-18.5"),
        fills(Plain, b"$room/$$", b"B 2/$"),
        fills(Plain, b"$$t$$$$", b"$t$$"),
        fills(Plain, b"$t.$t", b"-18.5.-18.5"),
        fills(Plain, b"$v", b"$t"),
        fills(Plain, b"$unset|$(unset)|$(unset:e)", b"||"),
        fills(Plain, b"$T", b""),
        fills(Plain, b"$t2", b"second"),
        fills(Plain, b"$_x", b"under"),
        fills(Plain, b"$abcdefghijklmnop", b"sixteen"),
        fills(Plain, b"$abcdefghijklmnopq", b""),
        fills(Plain, b"$(abcdefghijklmnopq)!", b"!"),
        fills(Plain, b"\x00\xff$t\n", b"\x00\xff-18.5\n"),
        fills(
            Plain,
            b"$z",
            b"zzzzzzzzzzzzzzzzzzzzzzzzzzzzzzzzzzzzzzzzzzzzzzzzzzzzzzzzzzzzzzzz",
        ),
    ]
}

fn conversions() -> [Case; 13] {
    [
        fills(Plain, b"$(room:e)$(room:E)", b"B%202B%202"),
        fills(Plain, b"$(room:escape)$(room:EsCaPe)", b"B%202B%202"),
        fills(Plain, b"$(p:u)$(p:U)", b"A%4A%4"),
        fills(Plain, b"$(p:unesc)$(p:uNeSc)", b"A%4A%4"),
        fills(Plain, b"$(p:n)$(p:N)", b"%41%4%41%4"),
        fills(Plain, b"$(p:noesc)$(p:NOESC)", b"%41%4%41%4"),
        fills(Plain, b"$(h:u)", b"\xfe\xAB%g0%0g%"),
        fills(Address, b"/log?r=$(room)&t=$t", b"/log?r=B%202&t=-18.5"),
        fills(Address, b"/log?r=$(room:n)", b"/log?r=B 2"),
        fills(Address, b"$$ $(p:u)", b"$ A%4"),
        fills(Address, b"$(marks)", b"-_.!~*'()"),
        fills(Address, b"$(bytes)", b"%00%7F%80%FF%25%2F"),
        fills(Address, b"$v", b"%24t"),
    ]
}

fn broken_forms() -> [Case; 19] {
    [
        breaks(b"a$", 1),
        breaks(b"$", 0),
        breaks(b"$$$", 2),
        breaks(b"$ t", 0),
        breaks(b"$1", 0),
        breaks(b"ok $(", 3),
        breaks(b"$()", 0),
        breaks(b"$(t", 0),
        breaks(b"$(t:", 0),
        breaks(b"$(t:e", 0),
        breaks(b"$(t:)", 0),
        breaks(b"$(t:x)", 0),
        breaks(b"$(t:ee)", 0),
        breaks(b"$(t:e )", 0),
        breaks(b"$(t )", 0),
        breaks(b"$( t)", 0),
        breaks(b"$(1t)", 0),
        breaks(b"$t $(t) $-", 8),
        breaks(b"$- $-", 0),
    ]
}

/// Texts of 1,024 and 1,025 bytes, and the longest that a filling can give.
fn lengths(rt: &HostRuntime, values: &Variables<'_, PackedRun<'_>>) -> anyhow::Result<()> {
    let heap = rt.alloc();
    let mut buf = vec![in heap; b'.'; 98_304]?;
    for (byte, size) in [
        (b'a', 1024),
        (b'a', 1025),
        (b'$', 1024),
        (b'$', 1025),
        (b'$', 1023),
    ] {
        let text = vec![in heap; byte; size]?;
        let letter = char::from(byte);
        match fill(text.as_slice(), values, Plain, buf.as_mut_slice()) {
            Ok(n) => println!(rt; "{size} times {letter}: length {n}")?,
            Err(TextFault::Broken(place)) => println!(rt;
                "{size} times {letter}: refused 21 at place {place}"
            )?,
            Err(fault) => {
                let number = fault.number();
                println!(rt; "{size} times {letter}: refused {number}")?;
            }
        }
    }
    let mut text = Vec::new(heap);
    for _ in 0..512 {
        text.extend_from_slice(b"$s")?;
    }
    match fill(text.as_slice(), values, Address, buf.as_mut_slice()) {
        Ok(n) => println!(rt; "512 references to 64 spaces, escaped: length {n}")?,
        Err(fault) => {
            let number = fault.number();
            println!(rt; "512 references to 64 spaces, escaped: refused {number}")?;
        }
    }
    Ok(())
}

fn run(rt: &HostRuntime) -> anyhow::Result<()> {
    let mut memory = [0u8; 1024];
    let mut store = PackedRun::new(&mut memory);
    store.clear();
    give(&mut store, b"t", b"-18.5");
    give(&mut store, b"room", b"B 2");
    give(&mut store, b"p", b"%41%4");
    give(&mut store, b"v", b"$t");
    give(&mut store, b"t2", b"second");
    give(&mut store, b"_x", b"under");
    give(&mut store, b"abcdefghijklmnop", b"sixteen");
    give(&mut store, b"h", b"%fe%aB%g0%0g%");
    give(&mut store, b"marks", b"-_.!~*'()");
    give(&mut store, b"bytes", b"\x00\x7F\x80\xFF%/");
    give(&mut store, b"s", &[b' '; 64]);
    give(&mut store, b"z", &[b'z'; 64]);
    let values = Variables { store: &store };
    work(rt, "references", &references(), &values)?;
    work(rt, "conversions", &conversions(), &values)?;
    work(rt, "broken texts", &broken_forms(), &values)?;
    lengths(rt, &values)
}

fn main(rt: HostRuntime) -> anyhow::Result<()> {
    run(&rt)
}
