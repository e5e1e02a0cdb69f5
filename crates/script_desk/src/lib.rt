//! The desk: what a script has made so far; and a whole script, worked line by line.
#![tactic(auto)]

use examples::worked_examples;
use script_rounds::Rounds;
use script_shelves::Shelves;
use script_stores::Stores;
use script_texts::{DeskError, convert, on_address};
use script_words::{Command, words};
use std::alloc::Global;
use std::io::Read;

/// All that a script has made. It ends by `close`, which leaves no ticket.
struct Desk {
    heap: Global,
    stores: Stores,
    shelves: Shelves,
    rounds: Rounds,
}

impl Desk {
    fn new(heap: Global) -> Desk {
        Desk {
            heap,
            stores: Stores::new(heap),
            shelves: Shelves::new(heap),
            rounds: Rounds::new(heap),
        }
    }

    fn close(self) {
        let Desk {
            heap: _,
            stores: _,
            shelves: _,
            rounds,
        } = self;
        rounds.close();
    }

    /// Works one command, and says what it answered.
    fn work(&mut self, command: Command<'_>) -> Result<String, DeskError> {
        match command.verb {
            b"store" => self.stores.make(command.args),
            b"set" | b"clear" | b"value" | b"count" | b"bytes" | b"limits" | b"fill" => {
                self.stores.work(command)
            }
            b"shelf" => self.shelves.make(command.args),
            b"ask" => self.shelves.ask(command.args),
            b"handheld" => self.rounds.make(command.args),
            b"hand" => self.rounds.hand(command.args),
            b"both" => self.rounds.work_both(&self.shelves, command.args),
            b"new"
            | b"start"
            | b"press"
            | b"target"
            | b"arrive"
            | b"give-up"
            | b"follow"
            | b"type"
            | b"show"
            | b"fill-in"
            | b"value-of"
            | b"address" => { self.rounds.work(&self.shelves, command) }
            b"escape" | b"unescape" => convert(self.heap, command),
            b"lawful" | b"parts" | b"resolve" => on_address(self.heap, command),
            _ => Err(DeskError::UnknownCommand),
        }
    }

    /// Works one line. One that is empty, and one that begins with `#`, is passed over without an answer.
    fn work_line(&mut self, line: &[u8]) -> Result<Option<String>, DeskError> {
        let words = words(self.heap, line)?;
        match words.as_slice() {
            [] => Ok(None),
            [verb, ..] if verb.as_slice().starts_with(b"#") => Ok(None),
            [verb, args @ ..] => {
                let verb = verb.as_slice();
                Ok(Some(self.work(Command { verb, args })?))
            }
        }
    }
}

/// The lines of a script, one after another, counted from 1.
fn work_lines(rt: &HostRuntime, desk: &mut Desk, script: &[u8]) -> anyhow::Result<()> {
    for (before, line) in script.split(|b| *b == b'\n').enumerate() {
        let asked = String::from_utf8_lossy(rt.alloc(), line)?;
        match desk.work_line(line) {
            Ok(None) => {}
            Ok(Some(answer)) => println!(rt; "{asked} => {answer}")?,
            Err(error) => {
                let number = before.saturating_add(1);
                println!(rt; "line {number}: {error}: {asked}")?;
            }
        }
    }
    Ok(())
}

/// Works the script on standard input, and prints one line for each command: what was asked and what
/// was answered. A line that cannot be read gets a message with its number, and the run goes on.
pub fn work_script(rt: &HostRuntime) -> anyhow::Result<()> {
    let heap = rt.alloc();
    let mut script = Vec::new(heap);
    let mut input = rt.stdin();
    input.read_to_end(&mut script)?;
    worked_examples();
    let mut desk = Desk::new(heap);
    let r = work_lines(rt, &mut desk, script.as_slice());
    desk.close();
    r
}
