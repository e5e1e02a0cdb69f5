//! Repeats one operation on a store, for counting what a call costs: `tools/bench-stores` runs it.
//!
//! Words: the kind of store (`packed` or `slots`), the operation (`set`, `value` or `clear`), how many names are set,
//! and how many rounds. All but `Bench::run` is written for any store.
#![tactic(auto)]

use anyhow::{Context, anyhow};
use packed::PackedRun;
use slots::{Slot, SlotTable};
use std::str::FromStr;
use std::{env, fmt};
use store::Store;

/// The longest value.
const LONG: &[u8] = b"0123456789012345678901234567890123456789012345678901234567890123";

/// A kind of store.
#[derive(Clone, Copy)]
enum Kind {
    Packed,
    Slots,
}

impl FromStr for Kind {
    type Err = anyhow::Error;

    fn from_str(word: &str) -> anyhow::Result<Kind> {
        match word {
            "packed" => Ok(Kind::Packed),
            "slots" => Ok(Kind::Slots),
            _ => Err(anyhow!("no such store")),
        }
    }
}

impl fmt::Display for Kind {
    fn fmt<W: fmt::Write>(&self, f: &mut fmt::Formatter<W>) -> fmt::Result {
        f.write_str(match self {
            Kind::Packed => "packed",
            Kind::Slots => "slots",
        })
    }
}

/// What is repeated.
#[derive(Clone, Copy)]
enum Measured {
    /// A value of 63 bytes gives way to one of 64, or the other way round.
    Set,
    /// The value of one name after another.
    Value,
    /// All names are unset, and one is set.
    Clear,
}

impl FromStr for Measured {
    type Err = anyhow::Error;

    fn from_str(word: &str) -> anyhow::Result<Measured> {
        match word {
            "set" => Ok(Measured::Set),
            "value" => Ok(Measured::Value),
            "clear" => Ok(Measured::Clear),
            _ => Err(anyhow!("no such operation")),
        }
    }
}

/// The name with a number: 16 bytes.
fn name_of(number: u8) -> [u8; 16] {
    let mut name = *b"variable_name_00";
    name[14] = b'0' + number / 10 % 10;
    name[15] = b'0' + number % 10;
    name
}

/// Sets so many names, each with the longest value.
fn fill<S: Store>(store: &mut S, names: u8) {
    store.clear();
    for number in 0..names {
        let _ = store.set(&name_of(number), LONG);
    }
}

/// What is measured, on a store with so many names, in how many rounds.
#[derive(Clone, Copy)]
struct Bench {
    measured: Measured,
    names: u8,
    rounds: u32,
}

impl Bench {
    /// One round; what it saw is added up, so that none is left out.
    fn round<S: Store>(self, store: &mut S, name: &[u8], value: &[u8]) -> usize {
        match self.measured {
            Measured::Set => usize::from(store.set(name, value).is_ok()),
            Measured::Value => store.value(name).len(),
            Measured::Clear => {
                store.clear();
                usize::from(store.set(name, LONG).is_ok())
            }
        }
    }

    /// Repeats the operation on the store, over one name after another.
    fn repeat<S: Store>(self, store: &mut S) -> usize {
        fill(store, self.names);
        let mut seen = 0usize;
        for (i, number) in (0..self.rounds).zip((0..self.names.max(1)).cycle()) {
            let value = if i % 2 == 1 { LONG } else { &LONG[..63] };
            seen = seen.wrapping_add(self.round(store, &name_of(number), value));
        }
        seen
    }

    /// Repeats the operation on a store of the kind.
    fn run(self, rt: &HostRuntime, kind: Kind) -> anyhow::Result<()> {
        let seen = match kind {
            Kind::Packed => {
                let mut memory = vec![in rt.alloc(); 0u8; 4160]?;
                self.repeat(&mut PackedRun::new(&mut memory))
            }
            Kind::Slots => {
                let mut memory = vec![in rt.alloc(); Slot::empty(); 64]?;
                self.repeat(&mut SlotTable::new(&mut memory))
            }
        };
        println!(rt;
            "{kind}, {} names, {} rounds: {seen}",
            self.names, self.rounds
        )?;
        Ok(())
    }
}

fn main(rt: HostRuntime) -> anyhow::Result<()> {
    let mut words = env::args(&rt)?;
    let _ = words.next();
    let kind = words.next().context("which store?")?;
    let operation = words.next().context("which operation?")?;
    let names = words.next().context("how many names?")?;
    let rounds = words.next().context("how many rounds?")?;
    let bench = Bench {
        measured: operation.as_str().parse()?,
        names: names.as_str().parse()?,
        rounds: rounds.as_str().parse()?,
    };
    bench.run(&rt, kind.as_str().parse()?)
}
