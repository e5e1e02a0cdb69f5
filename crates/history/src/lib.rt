//! The history: the addresses of the cards that were entered, at most sixteen, the newest first.
#![tactic(auto)]

mod memory;

pub use memory::History;
