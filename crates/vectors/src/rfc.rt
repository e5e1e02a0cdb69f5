//! The examples of RFC 2396, appendix C.
use crate::meaning::text_of;
use address::{Address, Kind, Unlawful};
use resolve::resolve;
use std::{fmt, fs, io};

const BASE: &str = "http://a/b/c/d;p?q";

/// How an outcome stands to that of the RFC.
#[derive(Clone, Copy, PartialEq, Eq)]
enum Verdict {
    AsThere,
    DotsStay,
    Refused,
    Unexpected,
}

impl fmt::Display for Verdict {
    fn fmt<W: fmt::Write>(&self, f: &mut fmt::Formatter<W>) -> fmt::Result {
        let text = match self {
            Verdict::AsThere => "as in the RFC",
            Verdict::DotsStay => "differs, dots stay",
            Verdict::Refused => "refused, as authority or scheme",
            Verdict::Unexpected => "UNEXPECTED",
        };
        write!(f, "{text}")
    }
}

/// How many of the verdicts are this one.
fn count_of(verdicts: &[Verdict], verdict: Verdict) -> usize {
    verdicts.iter().filter(|given| **given == verdict).count()
}

/// Whether the path of the reference has a segment `.` or `..`.
fn has_dot_segments(reference: &str) -> bool {
    let before_fragment = reference
        .split_once('#')
        .map_or(reference, |(front, _)| front);
    let path = before_fragment
        .split_once('?')
        .map_or(before_fragment, |(front, _)| front);
    path.split('/')
        .any(|segment| segment == "." || segment == "..")
}

/// The verdict on an outcome: whether it is that of the RFC, or a refusal.
fn judge(reference: &str, agrees: Result<bool, Unlawful>) -> Verdict {
    let foreign = matches!(
        Kind::of(reference.as_bytes()),
        Kind::NetPath | Kind::OtherScheme
    );
    match agrees {
        Err(Unlawful) if foreign => Verdict::Refused,
        Ok(true) if !foreign => Verdict::AsThere,
        Ok(false) if !foreign && has_dot_segments(reference) => Verdict::DotsStay,
        _ => Verdict::Unexpected,
    }
}

/// Whether the RFC's result, in which `(doc)` stands for the base, is this text.
fn is_result(res: &str, text: &str) -> bool {
    match res.strip_prefix("(doc)") {
        Some(added) => text.strip_prefix(BASE) == Some(added),
        None => res == text,
    }
}

/// The reference that a row shows.
fn reference_of(shown: &str) -> &str {
    if shown == "(empty)" { "" } else { shown }
}

/// Prints one row, and answers its verdict.
fn row(rt: &HostRuntime, base: &Address, shown: &str, res: &str) -> io::Result<Verdict> {
    let reference = reference_of(shown);
    let meaning = resolve(base, reference.as_bytes());
    let text = text_of(rt.alloc(), &meaning)?;
    let verdict = judge(reference, meaning.map(|_| is_result(res, text.as_str())));
    println!(rt; "{shown} -> {text}: {verdict} ({res})")?;
    Ok(verdict)
}

/// Prints each row of the table, and answers how many came out as they should not.
pub fn table(rt: &HostRuntime) -> io::Result<usize> {
    let text = fs::read_to_string(rt, "rfc2396-appendix-c.txt")?;
    let mut verdicts = Vec::new(rt.alloc());
    println!(rt; "RFC 2396, appendix C, on {BASE}")?;
    if let Ok(base) = Address::parse(BASE.as_bytes()) {
        for (shown, result) in text.lines().filter_map(|line| line.split_once('\t')) {
            verdicts.push(row(rt, &base, shown, result)?)?;
        }
    }
    let as_there = count_of(&verdicts, Verdict::AsThere);
    let dots_stay = count_of(&verdicts, Verdict::DotsStay);
    let refused = count_of(&verdicts, Verdict::Refused);
    let unexpected = count_of(&verdicts, Verdict::Unexpected);
    println!(rt;
        "as in the RFC {as_there}, dots stay {dots_stay}, refused {refused}, unexpected {unexpected}"
    )?;
    Ok(unexpected)
}
