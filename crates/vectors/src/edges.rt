//! Addresses and references at the edges of the rules.
use crate::meaning::text_of;
use address::{Address, is_lawful};
use resolve::resolve;
use std::alloc::{AllocError, Global};
use std::{fs, io};

/// A row of three texts with a tab between them.
fn columns(line: &str) -> Option<(&str, &str, &str)> {
    let (first, rest) = line.split_once('\t')?;
    let (second, third) = rest.split_once('\t')?;
    Some((first, second, third))
}

/// `front`, and then the letter `a` so many times.
fn long_bytes(heap: Global, front: &[u8], times: usize) -> Result<Vec<u8>, AllocError> {
    let mut bytes = Vec::from_slice(heap, front)?;
    for _ in 0..times {
        bytes.push(b'a')?;
    }
    Ok(bytes)
}

/// What a test of lawfulness prints.
fn verdict(lawful: bool) -> &'static str {
    if lawful { "lawful" } else { "unlawful" }
}

/// What stands after an outcome.
fn mark(expected: bool) -> &'static str {
    if expected { "" } else { " UNEXPECTED" }
}

/// Prints whether something is lawful, and answers whether that is as expected.
fn report(rt: &HostRuntime, what: &str, lawful: bool, expected: bool) -> io::Result<bool> {
    let outcome = verdict(lawful);
    let mark = mark(lawful == expected);
    println!(rt; "{what}: {outcome}{mark}")?;
    Ok(lawful == expected)
}

/// How many answers say that an outcome is not as expected.
fn unexpected(answers: &[bool]) -> usize {
    answers.iter().filter(|expected| !**expected).count()
}

/// Prints for each address whether it is lawful, and answers how many are not as expected.
pub fn addresses(rt: &HostRuntime) -> io::Result<usize> {
    println!(rt; "addresses")?;
    let text = fs::read_to_string(rt, "edge-addresses.txt")?;
    let mut answers = Vec::new(rt.alloc());
    for (what, address, expected) in text.lines().filter_map(columns) {
        let lawful = is_lawful(address.as_bytes());
        answers.push(report(rt, what, lawful, expected == "lawful")?)?;
    }
    let delete = is_lawful(b"http://h/\x7F");
    answers.push(report(rt, "the byte 0x7F", delete, false)?)?;
    answers.push(long_address(rt, "128 bytes", 119, true)?)?;
    answers.push(long_address(rt, "129 bytes", 120, false)?)?;
    Ok(unexpected(&answers))
}

/// Prints whether an address with so many letters in its path is lawful, and answers whether that is as expected.
fn long_address(rt: &HostRuntime, what: &str, letters: usize, expected: bool) -> io::Result<bool> {
    let bytes = long_bytes(rt.alloc(), b"http://h/", letters)?;
    report(rt, what, is_lawful(bytes.as_slice()), expected)
}

/// Prints what one reference means, and answers whether that is as expected.
fn reference(rt: &HostRuntime, current: &str, reference: &str, expected: &str) -> io::Result<bool> {
    let Ok(address) = Address::parse(current.as_bytes()) else {
        println!(rt; "{current}: UNEXPECTED")?;
        return Ok(false);
    };
    let text = text_of(rt.alloc(), &resolve(&address, reference.as_bytes()))?;
    let agrees = text.as_str() == expected;
    let mark = mark(agrees);
    println!(rt; "\"{reference}\" on {current} -> {text}{mark}")?;
    Ok(agrees)
}

/// Prints what each reference means, and answers how many are not as expected.
pub fn references(rt: &HostRuntime) -> io::Result<usize> {
    println!(rt; "references")?;
    let text = fs::read_to_string(rt, "edge-references.txt")?;
    let mut answers = Vec::new(rt.alloc());
    for (current, shown, expected) in text.lines().filter_map(columns) {
        answers.push(reference(rt, current, shown, expected)?)?;
    }
    answers.push(long_reference(rt, "119 bytes on http://h/", 119, true)?)?;
    answers.push(long_reference(rt, "120 bytes on http://h/", 120, false)?)?;
    Ok(unexpected(&answers))
}

/// Prints whether a reference of so many letters means a lawful address, and answers whether that is as expected.
fn long_reference(
    rt: &HostRuntime,
    what: &str,
    letters: usize,
    expected: bool,
) -> io::Result<bool> {
    let bytes = long_bytes(rt.alloc(), b"", letters)?;
    let lawful = Address::parse(b"http://h/").map_or(
        !expected,
        |current| resolve(&current, bytes.as_slice()).is_ok(),
    );
    report(rt, what, lawful, expected)
}
