//! The stores that a script has made, of either kind, and the commands on them.
#![tactic(auto)]

use commands::on_store;
use packed::PackedRun;
use script_texts::DeskError;
use script_words::{Command, buffer, size_of};
use slots::{Slot, SlotTable};
use std::alloc::Global;
use std::collections::BTreeMap;
use store::Store;

mod commands;

/// The memory of a store, of either kind.
#[derive(Drop)]
enum Memory {
    Packed(Vec<u8>),
    Slots(Vec<Slot>),
}

impl Memory {
    /// Memory of the kind and size, cleared before its first use.
    fn new(heap: Global, kind: &[u8], size: usize) -> Result<Memory, DeskError> {
        match kind {
            b"packed" => {
                let mut bytes = buffer(heap, size)?;
                PackedRun::new(bytes.as_mut_slice()).clear();
                Ok(Memory::Packed(bytes))
            }
            b"slots" => {
                let mut slots = vec![in heap; Slot::empty(); size]?;
                SlotTable::new(slots.as_mut_slice()).clear();
                Ok(Memory::Slots(slots))
            }
            _ => Err(DeskError::Usage(STORE_USAGE)),
        }
    }

    fn work(&mut self, heap: Global, command: Command<'_>) -> Result<String, DeskError> {
        match self {
            Memory::Packed(bytes) => {
                on_store(heap, &mut PackedRun::new(bytes.as_mut_slice()), command)
            }
            Memory::Slots(slots) => {
                on_store(heap, &mut SlotTable::new(slots.as_mut_slice()), command)
            }
        }
    }
}

const STORE_USAGE: &str = "store NAME packed SIZE, or store NAME slots COUNT";

/// The stores of a script, by their names.
#[derive(Drop)]
pub struct Stores {
    heap: Global,
    all: BTreeMap<Vec<u8>, Memory>,
}

impl Stores {
    /// No store yet.
    pub fn new(heap: Global) -> Stores {
        Stores {
            heap,
            all: BTreeMap::new(heap),
        }
    }

    /// Makes a store of a kind and size, cleared, under a name.
    pub fn make(&mut self, args: &[Vec<u8>]) -> Result<String, DeskError> {
        let [name, kind, size] = args else {
            return Err(DeskError::Usage(STORE_USAGE));
        };
        let Some(size) = size_of(size.as_slice()) else {
            return Err(DeskError::Usage(STORE_USAGE));
        };
        if self.all.contains_key(name) {
            return Err(DeskError::UsedName);
        }
        let memory = Memory::new(self.heap, kind.as_slice(), size)?;
        let _ = self.all.insert(name.clone()?, memory)?;
        Ok(format!(in self.heap; "done")?)
    }

    /// A command on the store of the name that comes first.
    pub fn work(&mut self, command: Command<'_>) -> Result<String, DeskError> {
        let [name, args @ ..] = command.args else {
            return Err(DeskError::Usage("a store's name comes first"));
        };
        let verb = command.verb;
        match self.all.get_mut(name) {
            Some(memory) => memory.work(self.heap, Command { verb, args }),
            None => Err(DeskError::UnknownName),
        }
    }
}
