//! Stores at their edges: a table of operations from the input, worked on stores of many sizes.
//!
//! A line of the table is `set NAME VALUE`, `long NAME LENGTH` (a value of that length), `unset NAME`,
//! `value NAME`, `clear` or `fill` (names with the longest value up to the first refusal). What is printed
//! is `ok`, the refusal's number or the value, then how many names are set and their bytes. All but
//! `packed_runs`, `found_memory` and `side_by_side` is written for any store.
#![tactic(auto)]

use packed::PackedRun;
use slots::{Slot, SlotTable};
use std::fmt::Display;
use store::{Refusal, Store};
use store_laws::{Operation, work_all_both, work_both};

/// The sizes of memory for packed runs, in bytes.
const SIZES: [usize; 9] = [0, 63, 64, 65, 66, 76, 331, 4160, 5000];

/// More bytes than a value may have.
const DIGITS: &[u8] =
    b"01234567890123456789012345678901234567890123456789012345678901234567890123456789";

/// The operation of a line, if it is one.
fn operation_of(line: &str) -> Option<Operation<'_>> {
    let mut words = line.splitn(3, ' ');
    let verb = words.next()?;
    let name = words.next().unwrap_or("").as_bytes();
    let rest = words.next().unwrap_or("");
    match verb {
        "set" => Some(Operation::Set(name, rest.as_bytes())),
        "long" => Some(Operation::Set(name, front(rest.parse().unwrap_or(DIGITS.len())))),
        "unset" => Some(Operation::Set(name, b"")),
        "value" => Some(Operation::Value(name)),
        "clear" => Some(Operation::Clear),
        _ => None,
    }
}

/// So many digits, or all.
fn front(len: usize) -> &'static [u8] {
    &DIGITS[..len.min(DIGITS.len())]
}

/// The bytes as text, with a mark where they are none.
fn text(bytes: &[u8]) -> &str {
    std::str::from_utf8(bytes).unwrap_or("?")
}

/// Prints an answer, and how full the store is.
fn print_answer<S: Store, A: Display + Drop>(
    rt: &HostRuntime,
    store: &S,
    answer: A,
) -> anyhow::Result<()> {
    println!(rt;
        "{answer}; names {}, bytes {}",
        store.count(),
        store.bytes()
    )?;
    Ok(())
}

/// Prints what the store answered to a set: `ok`, or the number of the refusal.
fn print_outcome<S: Store>(
    rt: &HostRuntime,
    store: &S,
    outcome: Result<(), Refusal>,
) -> anyhow::Result<()> {
    match outcome {
        Ok(()) => print_answer(rt, store, "ok"),
        Err(refusal) => print_answer(rt, store, refusal.number()),
    }
}

/// Works an operation, and prints what the store answers.
fn work<S: Store>(rt: &HostRuntime, store: &mut S, operation: Operation<'_>) -> anyhow::Result<()> {
    match operation {
        Operation::Set(name, value) => {
            let outcome = store.set(name, value);
            print_outcome(rt, store, outcome)
        }
        Operation::Value(name) => print_answer(rt, store, text(store.value(name))),
        Operation::Clear => {
            store.clear();
            print_answer(rt, store, "ok")
        }
        _ => print_answer(rt, store, "ok"),
    }
}

/// Sets names with the longest value up to the first refusal.
fn fill<S: Store>(rt: &HostRuntime, store: &mut S) -> anyhow::Result<()> {
    let outcome = (0..99u8).try_for_each(|i| {
        let name = [b'n', b'0' + i / 10, b'0' + i % 10];
        store.set(&name, front(64))
    });
    print_outcome(rt, store, outcome)
}

/// Works the table on one store.
fn edges<S: Store>(rt: &HostRuntime, store: &mut S, table: &[String]) -> anyhow::Result<()> {
    println!(rt;
        "  limits: names {}, bytes {}",
        store.most_names(),
        store.most_bytes()
    )?;
    print_answer(rt, store, "  before the first clear")?;
    for line in table {
        print!(rt; "  {line}: ")?;
        match operation_of(line.as_str()) {
            Some(operation) => work(rt, store, operation)?,
            None => fill(rt, store)?,
        }
    }
    Ok(())
}

/// Packed runs of each size, over memory that holds no entry.
fn packed_runs(rt: &HostRuntime, table: &[String]) -> anyhow::Result<()> {
    for size in SIZES {
        println!(rt; "packed run over {size} bytes")?;
        let mut memory = vec![in rt.alloc(); 255u8; size]?;
        edges(rt, &mut PackedRun::new(&mut memory), table)?;
    }
    Ok(())
}

/// What a packed run means over memory that holds entries: those up to the first that does not count.
fn found_memory(rt: &HostRuntime) -> anyhow::Result<()> {
    let mut memory = [0u8; 80];
    let entries = b"\x01\x01b1\x02\x01c22\x01\x01a3";
    memory[0..entries.len()].copy_from_slice(entries);
    let mut store = PackedRun::new(&mut memory);
    println!(rt; "packed run over memory with b=1, c=22 and, out of order, a=3")?;
    work(rt, &mut store, Operation::Count)?;
    work(rt, &mut store, Operation::Value(b"c"))?;
    work(rt, &mut store, Operation::Value(b"a"))?;
    work(rt, &mut store, Operation::Set(b"a", b"3"))?;
    let mut again = PackedRun::new(&mut memory);
    println!(rt; "the same memory lent once more")?;
    work(rt, &mut again, Operation::Count)?;
    work(rt, &mut again, Operation::Value(b"a"))
}

/// Whether two stores, once cleared, answer the table alike.
fn side_by_side<A: Store, B: Store>(a: &mut A, b: &mut B, table: &[String]) -> bool {
    let mut alike = work_all_both(a, b, &[Operation::Clear, Operation::MostNames]);
    for operation in table.iter().filter_map(|line| operation_of(line.as_str())) {
        alike &= work_both(a, b, operation);
    }
    alike
}

/// Two packed runs over memories of these sizes.
fn packed_beside_packed(
    rt: &HostRuntime,
    table: &[String],
    first: usize,
    second: usize,
) -> anyhow::Result<()> {
    let mut memory = vec![in rt.alloc(); 1u8; first]?;
    let mut other = vec![in rt.alloc(); 200u8; second]?;
    let alike = side_by_side(
        &mut PackedRun::new(&mut memory),
        &mut PackedRun::new(&mut other),
        table,
    );
    println!(rt; "packed runs over {first} and {second} bytes answer alike: {alike}")?;
    Ok(())
}

/// A slot table and a packed run over so much memory; at 32 slots and 2,624 bytes their limits are equal.
fn slots_beside_packed(
    rt: &HostRuntime,
    table: &[String],
    slots: usize,
    bytes: usize,
) -> anyhow::Result<()> {
    let mut memory = vec![in rt.alloc(); Slot::empty(); slots]?;
    let mut other = vec![in rt.alloc(); 200u8; bytes]?;
    let alike = side_by_side(
        &mut SlotTable::new(&mut memory),
        &mut PackedRun::new(&mut other),
        table,
    );
    println!(rt; "{slots} slots and a packed run over {bytes} bytes answer alike: {alike}")?;
    Ok(())
}

fn main(rt: HostRuntime) -> anyhow::Result<()> {
    let heap = rt.alloc();
    // The error of an item is anyhow's, so that a lack of memory is said here as by every other allocation.
    let lines: Vec<String> = rt
        .lines(heap)
        .map(|line| line.map_err(anyhow::Error::from))
        .try_collect(heap)?;
    let table = lines.as_slice();
    packed_runs(&rt, table)?;
    found_memory(&rt)?;
    packed_beside_packed(&rt, table, 0, 64)?;
    packed_beside_packed(&rt, table, 65, 66)?;
    packed_beside_packed(&rt, table, 4160, 5000)?;
    slots_beside_packed(&rt, table, 32, 2624)?;
    slots_beside_packed(&rt, table, 31, 2624)
}
