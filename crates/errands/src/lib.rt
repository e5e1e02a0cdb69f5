//! The errand: none, out, or landed; and which calls it lets pass.
#![tactic(auto)]

ghost use Rattle.std.specs.Prelude.{◌≡◌, true, false, [], MatchResult};
ghost use Rattle.address.specs.Address.{lawful};
ghost use Rattle.decks.specs.declared.Way.TheVariants.{Forward};
ghost use Rattle.errands.specs.Deciding.{decided};
ghost use Rattle.errands.specs.Meaning.{trip_of};

use address::{Address, Unlawful};
use assignments::Assignments;
use faults::CallFault;
use machine::Way;

/// A go or a prev under way: where to, and what is set on arrival.
#[derive(Clone, Copy)]
pub struct Trip {
    pub way: Way,
    pub target: Address,
    pub pairs: Assignments,
}

/// No errand, one that is out, or one that has landed at a card whose enter task is still to be taken.
#[derive(Clone, Copy)]
pub enum Errand {
    Idle,
    Out(Trip),
    Landed(Way),
}

/// What a call needs of the errand: that there is none, or that it is out or landed with the number of its ticket.
#[derive(Clone, Copy)]
pub enum Need {
    Free,
    Out(u8),
    Landed(u8),
}

/// A call that passes, with what it goes on with.
#[derive(Clone, Copy)]
pub enum Passed {
    Free,
    Out(Trip),
    Landed(Way),
}

impl Trip {
    /// A go to an address, with nothing to set; refused if the address is unlawful.
    pub fn outright(address: &[u8]) -> Result<Trip, Unlawful>
        ensures { MatchResult result (λ t. (lawful address.now ≡ true) × (trip_of t ≡ record { way = Forward; target = address.now; pairs = [] })) (λ _. lawful address.now ≡ false) }
    {
        let target = Address::parse(address)?;
        Ok(Trip {
            way: Way::Forward,
            target,
            pairs: Assignments::none(),
        })
    }
}

impl Errand {
    /// Whether a call passes that has this need, at a browser of this number.
    pub fn decide(&self, number: u8, need: Need) -> Result<Passed, CallFault>
        ensures { result ≡ decided number self.now need }
    {
        match (self, need) {
            (Errand::Idle, Need::Free) => Ok(Passed::Free),
            (Errand::Out(_) | Errand::Landed(_), Need::Free) => Err(CallFault::Busy),
            (Errand::Out(trip), Need::Out(ticket)) if ticket == number => Ok(Passed::Out(*trip)),
            (Errand::Landed(way), Need::Landed(ticket)) if ticket == number => Ok(Passed::Landed(
                *way,
            )),
            (_, Need::Out(_) | Need::Landed(_)) => Err(CallFault::WrongTicket),
        }
    }
}
