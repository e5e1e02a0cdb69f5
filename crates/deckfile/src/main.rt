//! Writes shelf files from readable text, and prints what a file holds.
//!
//!     deckfile write TEXT FILE   the file of the decks in a text
//!     deckfile show FILE         its decks, or why it is refused: the cause, record and field
//!     deckfile try TEXT          the file as hexadecimal, and then what it holds
#![tactic(auto)]

use anyhow::anyhow;
use deck_text::Writer;
use decks::{CardView, DeckView, Decks, Part, Run, Shelf, TaskView, assignment_of};
use file_tables::FileTables;
use judge::{deck_address, record_ok, size_of, stands_from};
use shelf_file::FileShelf;
use std::{env, fs};
use tables::{Cause, Counts, Table, Tables, run_ok};

/// A text as it is printed.
fn shown<'a>(text: &Part<'a>) -> &'a str {
    std::str::from_utf8(text.bytes).unwrap_or("(no text)")
}

fn show_task<S: Shelf>(
    rt: &HostRuntime,
    shelf: &S,
    word: &str,
    task: &TaskView,
) -> anyhow::Result<()> {
    let kind = task.kind;
    let address = shown(&task.address);
    println!(rt; "    {word} {kind} {address}")?;
    for k in 0..usize::from(task.assignments.count) {
        let Some(assignment) = assignment_of(shelf, task, k) else {
            break;
        };
        let name = shown(&assignment.name);
        let value = shown(&assignment.value);
        println!(rt; "      set {name}={value}")?;
    }
    Ok(())
}

fn show_enter<S: Shelf>(
    rt: &HostRuntime,
    shelf: &S,
    word: &str,
    task: Option<u16>,
) -> anyhow::Result<()> {
    if let Some(t) = task {
        let task = shelf.task(t);
        show_task(rt, shelf, word, &task)?;
    }
    Ok(())
}

fn show_bindings<S: Shelf>(rt: &HostRuntime, shelf: &S, run: Run) -> anyhow::Result<()> {
    let first = run.first as usize;
    for b in first..first + run.count as usize {
        let binding = shelf.binding(b);
        let name = shown(&binding.name);
        let label = shown(&binding.label);
        println!(rt; "    bind {name}, label {label}")?;
        let task = shelf.task(binding.task);
        show_task(rt, shelf, "  task", &task)?;
    }
    Ok(())
}

fn show_card<S: Shelf>(rt: &HostRuntime, shelf: &S, card: &CardView) -> anyhow::Result<()> {
    let word = if card.newcontext {
        "newcontext"
    } else {
        "card"
    };
    let id = shown(&card.id);
    let body = shown(&card.body);
    println!(rt; "  {word} {id}")?;
    println!(rt; "    body {body:?}")?;
    show_enter(rt, shelf, "forward", card.forward)?;
    show_enter(rt, shelf, "backward", card.backward)?;
    show_bindings(rt, shelf, card.bindings)
}

fn show_deck<S: Shelf>(rt: &HostRuntime, shelf: &S, deck: &DeckView) -> anyhow::Result<()> {
    let address = shown(&deck.address);
    println!(rt; "deck {address}")?;
    println!(rt; "  template")?;
    show_enter(rt, shelf, "forward", deck.forward)?;
    show_enter(rt, shelf, "backward", deck.backward)?;
    show_bindings(rt, shelf, deck.bindings)?;
    let first = deck.cards.first as usize;
    for c in first..first + deck.cards.count as usize {
        let card = shelf.card(c);
        show_card(rt, shelf, &card)?;
    }
    Ok(())
}

fn show_decks<S: Shelf>(rt: &HostRuntime, shelf: &S) -> anyhow::Result<()> {
    for deck in Decks::of(shelf) {
        show_deck(rt, shelf, &deck)?;
    }
    Ok(())
}

/// The first field of a record that is outside its allowance: the tests stand in the order of the
/// fields, and the last field needs none.
fn field_name<T: Tables>(tables: &T, n: Counts, table: Table, i: usize) -> &'static str {
    match table {
        Table::Decks => deck_field(tables, n, i),
        Table::Cards => card_field(tables, n, i),
        Table::Bindings => {
            let r = tables.binding(i);
            if !n.ref_ok(r.name) || r.name.len == 0 || r.name.len > 32 {
                "name"
            } else if !n.text_ok(r.label) {
                "label"
            } else {
                "task"
            }
        }
        Table::Tasks => {
            let r = tables.task(i);
            if r.kind > 3 {
                "kind"
            } else if !n.text_ok(r.address) {
                "address"
            } else {
                "assignments"
            }
        }
        Table::Assignments => {
            let r = tables.assignment(i);
            if !n.text_ok(r.name) { "name" } else { "value" }
        }
    }
}

fn deck_field<T: Tables>(tables: &T, n: Counts, i: usize) -> &'static str {
    let r = tables.deck(i);
    if !n.ref_ok(r.address) {
        "address"
    } else if r.cards.count == 0 || !run_ok(r.cards, n.cards) {
        "cards"
    } else if !n.perhaps_task_ok(r.forward) {
        "forward task"
    } else if !n.perhaps_task_ok(r.backward) {
        "backward task"
    } else {
        "bindings"
    }
}

fn card_field<T: Tables>(tables: &T, n: Counts, i: usize) -> &'static str {
    let r = tables.card(i);
    if !n.ref_ok(r.id) || r.id.len > 32 {
        "id"
    } else if r.mark > 1 {
        "mark"
    } else if !n.text_ok(r.body) {
        "body"
    } else if !n.perhaps_task_ok(r.forward) {
        "forward task"
    } else if !n.perhaps_task_ok(r.backward) {
        "backward task"
    } else {
        "bindings"
    }
}

const TABLES: [Table; 5] = [
    Table::Decks,
    Table::Cards,
    Table::Bindings,
    Table::Tasks,
    Table::Assignments,
];

/// Prints each record of a table that is outside its allowance, with the first such field.
fn show_faults<T: Tables>(rt: &HostRuntime, tables: &T, table: Table) -> anyhow::Result<()> {
    let n = tables.counts();
    for i in 0..size_of(n, table) {
        if !record_ok(tables, table, i) {
            let field = field_name(tables, n, table, i);
            println!(rt; "  {table} {i}: {field}")?;
        }
    }
    Ok(())
}

/// Prints each deck whose address is unlawful, has a number sign or stands again.
fn show_addresses<T: Tables>(rt: &HostRuntime, tables: &T) -> anyhow::Result<()> {
    let n = tables.counts();
    for k in 0..n.decks.min(65_535) {
        let address = deck_address(tables, k);
        if !address::is_deck_address(address) {
            println!(rt; "  deck {k}: address is not that of a deck")?;
        } else if stands_from(tables, k + 1, address) {
            println!(rt; "  deck {k}: address stands twice")?;
        }
    }
    Ok(())
}

fn show_refusal(rt: &HostRuntime, file: &[u8], cause: Cause) -> anyhow::Result<()> {
    let number = cause.number();
    let tables = FileTables::of(file);
    match cause {
        Cause::Size => println!(rt; "{number}: fewer than 14 or more than 60000 bytes")?,
        Cause::Form => println!(rt; "{number}: wrong form or mark")?,
        Cause::Sum => println!(rt; "{number}: the parts do not add up to the length")?,
        Cause::Record => {
            println!(rt; "{number}: outside its allowance")?;
            for table in TABLES {
                show_faults(rt, &tables, table)?;
            }
        }
        Cause::Address => {
            println!(rt; "{number}: a deck's address")?;
            show_addresses(rt, &tables)?;
        }
    }
    Ok(())
}

fn show_file(rt: &HostRuntime, file: &[u8]) -> anyhow::Result<()> {
    let shelf = FileShelf::open(file);
    match shelf.refusal() {
        Some(cause) => show_refusal(rt, file, cause),
        None => show_decks(rt, &shelf),
    }
}

fn written(rt: &HostRuntime, path: &str) -> anyhow::Result<Vec<u8>> {
    let heap = rt.alloc();
    let text = fs::read_to_string(rt, path)?;
    let mut writer = Writer::new(heap);
    for line in text.as_str().lines() {
        writer.line(line)?;
    }
    writer.file(heap)
}

fn show_hex(rt: &HostRuntime, file: &[u8]) -> anyhow::Result<()> {
    for row in file.chunks(16) {
        for byte in row {
            print!(rt; "{byte:02x} ")?;
        }
        println!(rt; "")?;
    }
    Ok(())
}

fn run(rt: &HostRuntime) -> anyhow::Result<()> {
    let mut args = env::args(rt)?;
    let _ = args.next();
    let (Some(mode), Some(path)) = (args.next(), args.next()) else {
        return Err(anyhow!("deckfile write TEXT FILE, show FILE, or try TEXT"));
    };
    match mode.as_str() {
        "show" => {
            let file = fs::read(rt, path.as_str())?;
            show_file(rt, file.as_slice())
        }
        "write" => {
            let Some(to) = args.next() else {
                return Err(anyhow!("deckfile write TEXT FILE"));
            };
            let file = written(rt, path.as_str())?;
            fs::write(rt, to.as_str(), file.as_slice())?;
            Ok(())
        }
        "try" => {
            let file = written(rt, path.as_str())?;
            show_hex(rt, file.as_slice())?;
            show_file(rt, file.as_slice())
        }
        _ => Err(anyhow!("deckfile write TEXT FILE, show FILE, or try TEXT")),
    }
}

fn main(rt: HostRuntime) -> anyhow::Result<()> {
    run(&rt)
}
