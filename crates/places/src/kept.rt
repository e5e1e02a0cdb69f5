//! Places and tasks with the shelf that they are on, each within its allowances.
ghost use Rattle.std.specs.Prelude.{◌≡◌};
ghost use Rattle.std.proofs.Props.{props};
ghost use Rattle.decks.specs.Allowances.{TaskAllowed};
ghost use Rattle.decks.specs.Views.{task_of};
ghost use Rattle.places.specs.Allowed.{seen, PlaceAllowed};

use crate::Place;
use decks::{Shelf, TaskView};
use std::alloc::AllocError;

/// A place with the shelf that it is on, within its allowances.
pub struct ShelfPlace<'a, S: Shelf> {
    pub shelf: &'a S,
    pub place: Place<'a>,
    pub ghost allowed: { PlaceAllowed (seen (S.Shelf.parts shelf.now) place.deck place.card) } by { Prim.hlevel props },
}

// A derive would ask that the shelf itself can be copied.
impl<S: Shelf> Copy for ShelfPlace<'_, S> {}

impl<S: Shelf> Clone for ShelfPlace<'_, S> {
    ghost is_clone = { λ x y. y ≡ x };

    ghost is_infallible = { λ _. Unit {0} };

    fn clone(&self) -> Result<Self, AllocError> {
        Ok(*self)
    }
}

/// A task of a shelf.
pub struct Task<'a, S: Shelf> {
    pub shelf: &'a S,
    pub view: TaskView<'a>,
    pub ghost allowed: { TaskAllowed (task_of (S.Shelf.parts shelf.now) view) } by { Prim.hlevel props },
}

impl<S: Shelf> Copy for Task<'_, S> {}

impl<S: Shelf> Clone for Task<'_, S> {
    ghost is_clone = { λ x y. y ≡ x };

    ghost is_infallible = { λ _. Unit {0} };

    fn clone(&self) -> Result<Self, AllocError> {
        Ok(*self)
    }
}
