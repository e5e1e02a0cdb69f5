ghost use Rattle.std.specs.Prelude.{◌≡◌, ◌≤◌, true, take};
ghost use Rattle.assignments.specs.Pairs.{pairs_of, distinct};

use crate::pair::Pair;

/// At most 16 assignments, no name twice, to be made together.
#[derive(Clone, Copy)]
pub struct Assignments {
    // No heap, and a list is copied with its errand: so an array with its count.
    pub(crate) list: [Pair; 16],
    pub(crate) count: usize,
    ghost few: { count ≤ 16 },
    ghost apart: { distinct (pairs_of (take count list)) ≡ true },
}
