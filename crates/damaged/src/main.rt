//! Judges a thousand damaged shelf files, as files and as records, and compares the numbers with
//! those that an independent reader gave.
#![tactic(auto)]

use anyhow::anyhow;
use file_tables::FileTables;
use hex_text::bytes_of;
use loaded::Loaded;
use records::RecordShelf;
use shelf_file::FileShelf;
use std::alloc::{AllocError, Global};
use std::fs;
use tables::Cause;

/// The numbers of a line.
fn numbers(heap: Global, line: &str) -> anyhow::Result<Vec<usize>> {
    let mut all = Vec::new(heap);
    for word in line.split_whitespace() {
        all.push(word.parse::<usize>()?)?;
    }
    Ok(all)
}

/// The front of the base that is kept, with single bytes changed: a place and a byte for each.
fn damaged(heap: Global, base: &[u8], keep: usize, changes: &[usize]) -> anyhow::Result<Vec<u8>> {
    let mut file = base[..keep.min(base.len())].to_vec(heap)?;
    for change in changes.chunks(2) {
        let [place, value] = change else {
            return Err(anyhow!("a place without a byte"));
        };
        let value = u8::try_from(*value)?;
        if let Some(byte) = file.get_mut(*place) {
            *byte = value;
        }
    }
    Ok(file)
}

/// Whether the file gets the number as a file, and its tables get it too where the parts are fine.
fn agrees(heap: Global, file: &[u8], expected: usize) -> Result<bool, AllocError> {
    let by_file = FileShelf::open(file).refusal().map_or(0, Cause::number);
    let copy = Loaded::copy(heap, &FileTables::of(file))?;
    let records = RecordShelf::over(copy.lend());
    let by_records = records.refusal().map_or(0, Cause::number);
    let same = if by_file < 44 {
        by_records == 0
    } else {
        by_records == by_file
    };
    Ok(same && by_file as usize == expected)
}

/// Whether a line's damage gets the line's number.
fn line_agrees(heap: Global, base: &[u8], line: &str) -> anyhow::Result<bool> {
    let words = numbers(heap, line)?;
    let [expected, keep, changes @ ..] = words.as_slice() else {
        return Err(anyhow!("a line without a number"));
    };
    let file = damaged(heap, base, *keep, changes)?;
    Ok(agrees(heap, file.as_slice(), *expected)?)
}

fn run(rt: &HostRuntime) -> anyhow::Result<()> {
    let heap = rt.alloc();
    let hex = fs::read_to_string(rt, "base.hex")?;
    let base = bytes_of(heap, hex.as_str())?;
    let damages = fs::read_to_string(rt, "damages.txt")?;
    let mut files = 0u32;
    let mut agree = 0u32;
    for line in damages.as_str().lines() {
        files = files.saturating_add(1);
        if line_agrees(heap, base.as_slice(), line)? {
            agree = agree.saturating_add(1);
        } else {
            println!(rt; "another number than: {line}")?;
        }
    }
    println!(rt; "{files} damaged files, {agree} with the number of the independent reader")?;
    Ok(())
}

fn main(rt: HostRuntime) -> anyhow::Result<()> {
    run(&rt)
}
