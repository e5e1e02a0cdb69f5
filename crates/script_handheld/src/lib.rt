//! One handheld of a script: a browser over a store, and the ticket that lies with it.
#![tactic(auto)]

ghost use Rattle.std.specs.Prelude.{◌≡◌, IfErr};

use browser::{Browser, Step};
use decks::Shelf;
use faults::CallFault;
use script_answers::{BufferAnswer, Declined, done, failed, refused, written};
use script_texts::DeskError;
use script_tickets::Pocket;
use script_words::buffer;
use std::alloc::{AllocError, Global};
use std::mem;
use store::Store;

/// A browser with its number, and a place for one ticket.
pub struct Handheld<S> {
    pub heap: Global,
    number: u8,
    pub browser: Browser<S>,
    pocket: Pocket,
}

impl<S: Store + Drop> Handheld<S> {
    /// A handheld that is new, without a ticket.
    pub fn new(heap: Global, number: u8, store: S) -> Handheld<S> {
        Handheld {
            heap,
            number,
            browser: Browser::new(number, store),
            pocket: Pocket::Empty,
        }
    }

    /// Makes it new over another store. A ticket stays where it lies.
    pub fn remake(&mut self, number: u8, store: S) {
        self.number = number;
        self.browser = Browser::new(number, store);
    }

    /// Takes the ticket, if there is one.
    pub fn hand_out(&mut self) -> Pocket {
        mem::replace(&mut self.pocket, Pocket::Empty)
    }

    /// Puts a ticket here. One that lies here already is spent.
    pub fn hand_in(&mut self, ticket: Pocket) {
        let earlier = mem::replace(&mut self.pocket, ticket);
        earlier.empty();
    }

    /// Ends with no ticket left.
    pub fn close(self) {
        let Handheld {
            heap: _,
            number: _,
            browser: _,
            pocket,
        } = self;
        pocket.empty();
    }

    /// Takes the ticket of a kind that lies here.
    pub fn ticket<T: TryFrom<Pocket, Error = Pocket>>(&mut self) -> Result<T, DeskError>
        ensures { IfErr result (λ error. error ≡ DeskError.NoTicket) }
    {
        match T::try_from(self.hand_out()) {
            Ok(ticket) => Ok(ticket),
            Err(other) => {
                self.hand_in(other);
                Err(DeskError::NoTicket)
            }
        }
    }

    /// Says where a browser is, and keeps its ticket.
    pub fn stepped(&mut self, step: Step) -> Result<String, AllocError> {
        let number = self.number;
        match step {
            Step::Standing => format!(in self.heap; "standing"),
            Step::Outward(ticket) => {
                self.hand_in(ticket.into());
                format!(in self.heap; "outward ticket {number}")
            }
            Step::Landed(ticket) => {
                self.hand_in(ticket.into());
                format!(in self.heap; "landed ticket {number}")
            }
        }
    }

    /// New, under a number. A ticket stays where it lies.
    pub fn renew(&mut self, number: u8) -> Result<String, AllocError> {
        self.number = number;
        self.browser.renew(number);
        format!(in self.heap; "done")
    }

    /// Says where a call led, or why it led nowhere.
    fn led(&mut self, answer: Result<Step, Declined>) -> Result<String, AllocError> {
        match answer {
            Ok(step) => self.stepped(step),
            Err(declined) => declined.to_string(self.heap),
        }
    }

    /// Sets out for an address.
    pub fn start(&mut self, address: &[u8]) -> Result<String, AllocError> {
        let answer = self.browser.start(address);
        self.led(answer.map(Step::Outward).map_err(refused))
    }

    /// Takes the task of a binding.
    pub fn press<H: Shelf>(&mut self, shelf: &H, name: &[u8]) -> Result<String, AllocError> {
        let answer = self.browser.press(shelf, name);
        self.led(answer.map_err(refused))
    }

    /// Arrives by the outward ticket that lies here.
    pub fn arrive<H: Shelf>(&mut self, shelf: &H) -> Result<String, DeskError> {
        let ticket = self.ticket()?;
        let answer = self.browser.arrive(shelf, ticket);
        Ok(self.led(answer.map_err(failed))?)
    }

    /// Follows by the landed ticket that lies here.
    pub fn follow<H: Shelf>(&mut self, shelf: &H) -> Result<String, DeskError> {
        let ticket = self.ticket()?;
        let answer = self.browser.follow(shelf, ticket);
        Ok(self.led(answer.map_err(failed))?)
    }

    /// Gives up by the outward ticket that lies here.
    pub fn give_up(&mut self) -> Result<String, DeskError> {
        let ticket = self.ticket()?;
        let r = self.browser.give_up(ticket);
        Ok(done(self.heap, r)?)
    }

    /// Sets one variable.
    pub fn type_in(&mut self, name: &[u8], value: &[u8]) -> Result<String, AllocError> {
        let r = self.browser.type_in(name, value);
        done(self.heap, r)
    }

    /// What a call answers that is lent a buffer of this size.
    fn lend<T: BufferAnswer, F: FnOnce(&Browser<S>, &mut [u8]) -> Result<T, CallFault>>(
        &self,
        size: usize,
        call: F,
    ) -> Result<String, AllocError>
        requires { F.IsAlwaysCallable call }
    {
        let mut buf = buffer(self.heap, size)?;
        let r = call(&self.browser, buf.as_mut_slice());
        written(self.heap, r, buf.as_slice())
    }

    /// The target, asked by the outward ticket that lies here.
    pub fn target(&self, size: usize) -> Result<String, DeskError> {
        match &self.pocket {
            Pocket::Outward(ticket) => {
                Ok(self.lend(size, |browser, buf| browser.target(ticket, buf))?)
            }
            Pocket::Empty | Pocket::Landed(_) => Err(DeskError::NoTicket),
        }
    }

    /// The page of the current card.
    pub fn show<H: Shelf>(&self, shelf: &H, size: usize) -> Result<String, AllocError> {
        self.lend(size, |browser, buf| browser.show(shelf, buf))
    }

    /// The host's text, filled.
    pub fn fill(&self, size: usize, text: &[u8]) -> Result<String, AllocError> {
        self.lend(size, |browser, buf| browser.fill(text, buf))
    }

    /// The value of a name.
    pub fn value(&self, size: usize, name: &[u8]) -> Result<String, AllocError> {
        self.lend(size, |browser, buf| browser.value(name, buf))
    }

    /// The address of the current card.
    pub fn address(&self, size: usize) -> Result<String, AllocError> {
        self.lend(size, |browser, buf| browser.address(buf))
    }
}
