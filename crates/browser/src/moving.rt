//! Arriving at a card.
ghost use Rattle.std.specs.Prelude.{◌≡◌, []};
ghost use Rattle.address.specs.Meaning.{address_of};
ghost use Rattle.history.specs.Kept.{kept};
ghost use Rattle.places.specs.Places.{place_of};
ghost use Rattle.machine.specs.Answer.{tells};
ghost use Rattle.machine.specs.Call.{arrive};
ghost use Rattle.machine.specs.Going.{moved, begins_anew, enter_with, arrive_at};
ghost use Rattle.machine.specs.Lives.{Worked};
ghost use Rattle.errands.specs.Meaning.{trip_of};
ghost use Rattle.browser.specs.Meaning.{state_of, over};
ghost use Rattle.browser.specs.Calls.{before};
ghost use Rattle.browser.specs.Answers.{step_answer, step_told, StepUnspent, UnspentStep};

use super::Browser;
use crate::ticket::{LandedTicket, OutwardTicket, Step};
use decks::{Shelf, enter_task};
use errands::{Errand, Need, Passed, Trip};
use faults::CallFault;
use history::History;
use machine::Way;
use places::{ShelfPlace, find_place};
use store::Store;

/// A go adds its address to the history, a prev removes the newest.
fn travel(history: &mut History, trip: &Trip)
    ensures { kept history.new ≡ moved trip.now.way (address_of trip.now.target) (kept history.old) }
{
    match trip.way {
        Way::Forward => history.push(trip.target),
        Way::Backward => history.pop(),
    }
}

/// Whether arriving there begins anew: by a go, at a newcontext card.
fn begins_anew<H: Shelf>(way: Way, place: &ShelfPlace<H>) -> bool
    ensures { result ≡ begins_anew way (place_of place.now).card }
{
    match way {
        Way::Forward => place.place.card.newcontext,
        Way::Backward => false,
    }
}

impl<S: Store> Browser<S> {
    /// Enters the card: the history moves, and a card with an enter task gives a landed ticket.
    fn enter<H: Shelf>(&mut self, trip: &Trip, place: &ShelfPlace<H>) -> Step
        ensures entered { tells (state_of S.Store.meaning self.new) (step_told result) [] ≡ enter_with (state_of S.Store.meaning self.old) [] (trip_of trip.now) (place_of place.now) (S.Store.meaning self.old.store) (kept self.old.history) }
        ensures store { self.new.store ≡ self.old.store }
        ensures unspent { UnspentStep result }
    {
        travel(&mut self.history, trip);
        match enter_task(&place.place.deck, &place.place.card, trip.way) {
            Some(_) => {
                self.errand = Errand::Landed(trip.way);
                Step::Landed(LandedTicket::issue(self.number))
            }
            None => {
                self.errand = Errand::Idle;
                Step::Standing
            }
        }
    }

    /// Clears variables and history on a go to a newcontext card, else makes the assignments; then the card is entered.
    fn arrive_at<H: Shelf>(&mut self, trip: &Trip, place: &ShelfPlace<H>) -> Result<Step, CallFault>
        ensures arrived { tells (state_of S.Store.meaning self.new) (step_answer result) [] ≡ arrive_at (S.Store.limits self.old.store) (state_of S.Store.meaning self.old) [] (trip_of trip.now) (place_of place.now) }
        ensures limits { S.Store.limits self.new.store ≡ S.Store.limits self.old.store }
        ensures unspent { StepUnspent result }
    {
        self.errand = Errand::Idle;
        if begins_anew(trip.way, place) {
            self.store.clear();
            self.history.clear();
            return Ok(self.enter(trip, place));
        }
        trip.pairs.make(&mut self.store)?;
        Ok(self.enter(trip, place))
    }

    /// Arrives where the errand leads. Refused with 33. Fails with 26 or 24: then the errand ends, and all else stays.
    /// The ticket is spent anyway.
    pub fn arrive<H: Shelf>(&mut self, shelf: &H, ticket: OutwardTicket) -> Result<Step, CallFault>
        ensures worked { Worked (over S.Store.meaning S.Store.limits) self.old (before (arrive ticket.number) (H.Shelf.decks shelf.now)) self.new (step_answer result) [] }
        ensures unspent { StepUnspent result }
    {
        let Passed::Out(trip) = self.errand.decide(self.number, Need::Out(ticket.spend()))? else {
            unreachable()
        };
        let Some(place) = find_place(shelf, &trip.target) else {
            self.errand = Errand::Idle;
            return Err(CallFault::NoDeck);
        };
        self.arrive_at(&trip, &place)
    }
}
