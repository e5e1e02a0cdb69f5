//! Where an address leads on a shelf: a deck and a card of it, and the tasks that are to be had there.
#![tactic(auto)]

ghost use Rattle.std.specs.Prelude.{◌≡◌, IfSome};
ghost use Rattle.address.specs.Meaning.{address_of};
ghost use Rattle.decks.specs.Model.{pressed, enter_of};
ghost use Rattle.decks.specs.Views.{opt};
ghost use Rattle.machine.specs.Place.{place_at};
ghost use Rattle.places.specs.Places.{place_of, meant_task, task_bound};

use address::Address;
use decks::{CardView, DeckView, Shelf, Way, enter_task, find_binding, find_card, find_deck};

mod kept;

pub use kept::{ShelfPlace, Task};

/// A deck, with one card of it.
#[derive(Clone, Copy)]
pub struct Place<'a> {
    pub deck: DeckView<'a>,
    pub card: CardView<'a>,
}

/// The deck at the address before any `#`, if the shelf has it, and its card that the fragment means.
pub fn find_place<'a, S: Shelf>(shelf: &'a S, address: &Address) -> Option<ShelfPlace<'a, S>>
    ensures found { opt place_of result ≡ place_at (S.Shelf.decks shelf.now) (address_of address.now) }
    ensures there { IfSome result (λ p. p.shelf.now ≡ shelf.now) }
{
    let deck = find_deck(shelf, address.deck())?;
    let card = find_card(shelf, &deck, address.fragment())?;
    let place = Place { deck, card };
    Some(ShelfPlace { shelf, place })
}

impl<'a, S: Shelf> ShelfPlace<'a, S> {
    /// The task of the active binding of a name, if there.
    pub fn bound_task(&self, name: &[u8]) -> Option<Task<'a, S>>
        ensures found { opt meant_task result ≡ task_bound (pressed (place_of self.now).deck (place_of self.now).card name.now) }
        ensures there { IfSome result (λ t. t.shelf.now ≡ self.now.shelf.now) }
    {
        let binding = find_binding(self.shelf, &self.place.deck, &self.place.card, name)?;
        Some(Task {
            shelf: self.shelf,
            view: self.shelf.task(binding.task),
        })
    }

    /// The task that entering the card by a way takes, if there is one.
    pub fn entered_task(&self, way: Way) -> Option<Task<'a, S>>
        ensures found { opt meant_task result ≡ enter_of (place_of self.now).deck (place_of self.now).card way }
        ensures there { IfSome result (λ t. t.shelf.now ≡ self.now.shelf.now) }
    {
        let task = enter_task(&self.place.deck, &self.place.card, way)?;
        Some(Task {
            shelf: self.shelf,
            view: self.shelf.task(task),
        })
    }
}
