//! Judges files at the edges of every allowance, and asks two shelves with the same decks the same
//! questions.
#![tactic(auto)]

use anyhow::anyhow;
use decks::{BindingView, CardView, Decks, Part, Shelf, TaskView};
use file_tables::FileTables;
use hex_text::bytes_of;
use loaded::Loaded;
use questions::{Answer, ask_both};
use records::RecordShelf;
use shelf_file::FileShelf;
use std::alloc::{AllocError, Global};
use std::fs;
use tables::{Cause, Tables};

/// How many decks a shelf has.
fn deck_count<S: Shelf>(shelf: &S) -> usize {
    Decks::of(shelf).count()
}

/// One file of the list: the number that is expected, a label, and the bytes.
fn judged(rt: &HostRuntime, line: &str) -> anyhow::Result<()> {
    let heap = rt.alloc();
    let Some((number, rest)) = line.split_once(' ') else {
        return Err(anyhow!("a line without a label"));
    };
    let (label, hex) = rest.split_once(' ').unwrap_or((rest, ""));
    let expected = number.parse::<u8>()?;
    let file = bytes_of(heap, hex)?;
    let shelf = FileShelf::open(file.as_slice());
    let by_file = shelf.refusal().map_or(0, Cause::number);
    let decks = deck_count(&shelf);
    let copy = Loaded::copy(heap, &FileTables::of(file.as_slice()))?;
    let records = RecordShelf::over(copy.lend());
    let by_records = records.refusal().map_or(0, Cause::number);
    let same_decks = deck_count(&records) == decks;
    let word = if by_file == expected && same_decks {
        ""
    } else {
        " WRONG"
    };
    println!(rt; "{label}: {by_file}, records {by_records}, decks {decks}{word}")?;
    Ok(())
}

/// A text as it is printed.
fn shown<'a>(text: &Part<'a>) -> &'a str {
    std::str::from_utf8(text.bytes).unwrap_or("(no text)")
}

fn task_name(heap: Global, task: Option<TaskView>) -> Result<String, AllocError> {
    match task {
        Some(task) => format!(in heap; "{}", task.kind),
        None => format!(in heap; "none"),
    }
}

/// A card's id and body.
fn card_texts<'a>(card: Option<CardView<'a>>) -> (&'a str, &'a str) {
    card.map_or(
        ("none", "none"),
        |card| (shown(&card.id), shown(&card.body)),
    )
}

fn label_name<'a>(binding: Option<BindingView<'a>>) -> &'a str {
    binding.map_or("none", |binding| shown(&binding.label))
}

fn described(heap: Global, answer: &Answer) -> Result<String, AllocError> {
    let (card, body) = card_texts(answer.card);
    let forward = task_name(heap, answer.forward)?;
    let backward = task_name(heap, answer.backward)?;
    let label = label_name(answer.binding);
    format!(in heap; "card {card} ({body}), forward {forward}, backward {backward}, label {label}")
}

/// A question of the list: an address, a fragment and a name, with - for an empty one.
fn asked<'x>(
    rt: &HostRuntime,
    file: &'x FileShelf<'x>,
    records: &'x RecordShelf<'x>,
    line: &str,
) -> anyhow::Result<()> {
    let heap = rt.alloc();
    let Some((address, rest)) = line.split_once(' ') else {
        return Err(anyhow!("a question without a fragment"));
    };
    let Some((fragment, name)) = rest.split_once(' ') else {
        return Err(anyhow!("a question without a name"));
    };
    let fragment = if fragment == "-" { "" } else { fragment };
    let name = if name == "-" { "" } else { name };
    let (one, other) = ask_both(
        file,
        records,
        address.as_bytes(),
        fragment.as_bytes(),
        name.as_bytes(),
    );
    let by_file = described(heap, &one)?;
    let by_records = described(heap, &other)?;
    println!(rt; "{line}")?;
    println!(rt; "  file:    {by_file}")?;
    println!(rt; "  records: {by_records}")?;
    Ok(())
}

fn run(rt: &HostRuntime) -> anyhow::Result<()> {
    let heap = rt.alloc();
    let edges = fs::read_to_string(rt, "edges.txt")?;
    for line in edges.as_str().lines() {
        judged(rt, line)?;
    }
    let hex = fs::read_to_string(rt, "decks.hex")?;
    let bytes = bytes_of(heap, hex.as_str())?;
    let file = FileShelf::open(bytes.as_slice());
    let copy = Loaded::copy(heap, &FileTables::of(bytes.as_slice()))?;
    let records = RecordShelf::over(copy.lend());
    let questions = fs::read_to_string(rt, "questions.txt")?;
    for line in questions.as_str().lines() {
        asked(rt, &file, &records, line)?;
    }
    Ok(())
}

fn main(rt: HostRuntime) -> anyhow::Result<()> {
    run(&rt)
}
