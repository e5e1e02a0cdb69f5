//! The table itself: the memory that it was lent.
use slot_rows::Slot;

/// A store over a lent slice of slots, of which it uses the first 64 at most.
///
/// It is safe over every content of the slots, and means what they happen to hold until it is cleared:
/// the pair of each full slot, of equal names the first.
#[derive(Drop)]
pub struct SlotTable<'a> {
    pub(crate) slots: &'a mut [Slot],
}
