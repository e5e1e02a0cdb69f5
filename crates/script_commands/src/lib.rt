//! The commands on one handheld, whose name is left out.
#![tactic(auto)]

use decks::Shelf;
use script_handheld::Handheld;
use script_texts::DeskError;
use script_words::{Command, byte_of, size_of};
use store::Store;

const NEW_USAGE: &str = "new HANDHELD NUMBER, from 0 to 255";

const SIZE_USAGE: &str = "a buffer's size is a number up to 100,000";

fn byte(word: &[u8]) -> Result<u8, DeskError> {
    byte_of(word).ok_or(DeskError::Usage(NEW_USAGE))
}

fn size(word: &[u8]) -> Result<usize, DeskError> {
    size_of(word).ok_or(DeskError::Usage(SIZE_USAGE))
}

/// A command that only reads, and takes no shelf.
fn read<S: Store + Drop>(
    handheld: &Handheld<S>,
    command: Command<'_>,
) -> Result<String, DeskError> {
    match (command.verb, command.args) {
        (b"target", [room]) => handheld.target(size(room.as_slice())?),
        (b"target", _) => Err(DeskError::Usage("target HANDHELD SIZE")),
        (b"fill-in", [room, text]) => {
            Ok(handheld.fill(size(room.as_slice())?, text.as_slice())?)
        }
        (b"fill-in", _) => Err(DeskError::Usage("fill-in HANDHELD SIZE TEXT")),
        (b"value-of", [room, name]) => {
            Ok(handheld.value(size(room.as_slice())?, name.as_slice())?)
        }
        (b"value-of", _) => Err(DeskError::Usage("value-of HANDHELD SIZE NAME")),
        (b"address", [room]) => Ok(handheld.address(size(room.as_slice())?)?),
        (b"address", _) => Err(DeskError::Usage("address HANDHELD SIZE")),
        _ => Err(DeskError::UnknownCommand),
    }
}

/// A command that takes no shelf.
pub fn work<S: Store + Drop>(
    handheld: &mut Handheld<S>,
    command: Command<'_>,
) -> Result<String, DeskError> {
    match (command.verb, command.args) {
        (b"new", [number]) => Ok(handheld.renew(byte(number.as_slice())?)?),
        (b"new", _) => Err(DeskError::Usage(NEW_USAGE)),
        (b"start", [address]) => Ok(handheld.start(address.as_slice())?),
        (b"start", _) => Err(DeskError::Usage("start HANDHELD ADDRESS")),
        (b"give-up", []) => handheld.give_up(),
        (b"give-up", _) => Err(DeskError::Usage("give-up HANDHELD")),
        (b"type", [name, value]) => Ok(handheld.type_in(name.as_slice(), value.as_slice())?),
        (b"type", _) => Err(DeskError::Usage("type HANDHELD NAME VALUE")),
        _ => read(&*handheld, command),
    }
}

/// A command that takes a shelf, whose name is left out too.
pub fn work_on<S: Store + Drop, H: Shelf>(
    handheld: &mut Handheld<S>,
    shelf: &H,
    command: Command<'_>,
) -> Result<String, DeskError> {
    match (command.verb, command.args) {
        (b"press", [name]) => Ok(handheld.press(shelf, name.as_slice())?),
        (b"press", _) => Err(DeskError::Usage("press HANDHELD SHELF NAME")),
        (b"arrive", []) => handheld.arrive(shelf),
        (b"arrive", _) => Err(DeskError::Usage("arrive HANDHELD SHELF")),
        (b"follow", []) => handheld.follow(shelf),
        (b"follow", _) => Err(DeskError::Usage("follow HANDHELD SHELF")),
        (b"show", [room]) => Ok(handheld.show(shelf, size(room.as_slice())?)?),
        (b"show", _) => Err(DeskError::Usage("show HANDHELD SHELF SIZE")),
        _ => Err(DeskError::UnknownCommand),
    }
}
