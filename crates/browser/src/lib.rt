//! The browser: a number, variables in a store of any kind, a history and an errand, worked by calls.
//!
//! The shelf comes with each call. A call that is turned down leaves everything as it was.
#![tactic(auto)]

ghost use Rattle.std.specs.Prelude.{◌≡◌, [], ◌∷◌};
ghost use Rattle.machine.specs.State.{fresh};
ghost use Rattle.machine.specs.Call.{new, start, target, give_up, type, fill, value, address};
ghost use Rattle.machine.specs.Answer.{done};
ghost use Rattle.machine.specs.Lives.{Worked};
ghost use Rattle.browser.specs.Meaning.{state_of, over};
ghost use Rattle.browser.specs.Calls.{alone, lending};
ghost use Rattle.browser.specs.Answers.{ticket_answer, Unspent, done_answer};

use errands::{Errand, Need, Passed, Trip};
use faults::CallFault;
use history::History;
use store::Store;

mod moving;
mod reading;
mod tasking;
mod ticket;

pub use ticket::{Landed, LandedTicket, Outward, OutwardTicket, Step, Ticket};

/// A browser over a store.
#[derive(Drop)]
pub struct Browser<S> {
    number: u8,
    store: S,
    history: History,
    errand: Errand,
}

impl<S: Store> Browser<S> {
    /// A browser that is new: no variable, no address, no errand.
    pub fn new(number: u8, store: S) -> Browser<S>
        ensures state { state_of S.Store.meaning result ≡ fresh number }
        ensures limits { S.Store.limits result.store ≡ S.Store.limits store }
    {
        let mut store = store;
        store.clear();
        Browser {
            number,
            store,
            history: History::new(),
            errand: Errand::Idle,
        }
    }

    /// Makes the browser new under a number: variables and history are cleared, and any errand ends.
    pub fn renew(&mut self, number: u8)
        ensures { Worked (over S.Store.meaning S.Store.limits) self.old (alone (new number)) self.new done [] }
    {
        self.number = number;
        self.store.clear();
        self.history.clear();
        self.errand = Errand::Idle;
    }

    /// Sets out for an address, with no assignments. Refused with 32 or 23.
    pub fn start(&mut self, address: &[u8]) -> Result<OutwardTicket, CallFault>
        ensures worked { Worked (over S.Store.meaning S.Store.limits) self.old (alone (start address.now)) self.new (ticket_answer result) [] }
        ensures unspent { Unspent result }
    {
        let _ = self.errand.decide(self.number, Need::Free)?;
        self.errand = Errand::Out(Trip::outright(address)?);
        Ok(OutwardTicket::issue(self.number))
    }

    /// Ends the errand, and changes nothing else. Refused with 33; the ticket is spent anyway.
    pub fn give_up(&mut self, ticket: OutwardTicket) -> Result<(), CallFault>
        ensures { Worked (over S.Store.meaning S.Store.limits) self.old (alone (give_up ticket.number)) self.new (done_answer result) [] }
    {
        let _ = self.errand.decide(self.number, Need::Out(ticket.spend()))?;
        self.errand = Errand::Idle;
        Ok(())
    }

    /// Sets one variable; an empty value unsets it. Refused with 32, 12 or 24.
    pub fn type_in(&mut self, name: &[u8], value: &[u8]) -> Result<(), CallFault>
        ensures { Worked (over S.Store.meaning S.Store.limits) self.old (alone (type name.now value.now)) self.new (done_answer result) [] }
    {
        let Passed::Free = self.errand.decide(self.number, Need::Free)? else {
            unreachable()
        };
        Ok(self.store.set(name, value)?)
    }
}
