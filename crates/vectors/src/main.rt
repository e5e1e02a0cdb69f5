//! Compares references with the examples of RFC 2396, appendix C, and with a table at the edges of the rules.
//!
//! A row of the RFC without dot segments, authority or scheme has to come out as there. A row with dot segments keeps its dots here,
//! and a row with an authority or a scheme is refused. Any other outcome is counted as unexpected.
#![tactic(auto)]

mod edges;
mod meaning;
mod rfc;

use std::io;

fn main(rt: HostRuntime) -> io::Result<()> {
    let table = rfc::table(&rt)?;
    let addresses = edges::addresses(&rt)?;
    let references = edges::references(&rt)?;
    println!(rt;
        "unexpected: {table} in the RFC's table, {addresses} of the addresses, {references} of the references"
    )
}
