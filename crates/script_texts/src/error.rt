//! Why a command of a script is not worked.
use script_words::ScriptError;
use std::alloc::AllocError;
use thiserror::Error;

/// Why a command is not worked.
#[derive(Debug, Drop, Error)]
pub enum DeskError {
    /// The line cannot be read.
    #[error(transparent)]
    Unreadable(#[from] ScriptError),
    /// No command has this name.
    #[error("there is no such command")]
    UnknownCommand,
    /// How the command is to be written.
    #[error("{0}")]
    Usage(&'static str),
    /// Nothing on the desk has this name.
    #[error("nothing on the desk has this name")]
    UnknownName,
    /// Something on the desk has this name already.
    #[error("something on the desk has this name already")]
    UsedName,
    /// No ticket of the kind that is asked for lies there.
    #[error("no such ticket lies there")]
    NoTicket,
    /// There is no memory for it.
    #[error("out of memory")]
    Memory(#[from(alloc)] AllocError),
}
