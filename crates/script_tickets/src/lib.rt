//! Where a script keeps a ticket between its lines.
#![tactic(auto)]

ghost use Rattle.std.specs.Prelude.{◌≡◌, MatchResult};
ghost use Rattle.script_tickets.specs.declared.Pocket.TheVariants as pockets;
ghost use Rattle.script_tickets.specs.Unlanded.{Unlanded};

use browser::{Browser, LandedTicket, OutwardTicket, Step};
use packed::PackedRun;
use shelf_file::FileShelf;
use store::Store;

/// The place for one ticket. It cannot be let go: whoever has one empties it.
pub enum Pocket {
    Empty,
    Outward(OutwardTicket),
    Landed(LandedTicket),
}

impl From<OutwardTicket> for Pocket {
    ghost from_gives = { λ ticket pocket. pocket ≡ pockets.Outward ticket };

    fn from(ticket: OutwardTicket) -> Pocket {
        Pocket::Outward(ticket)
    }
}

impl From<LandedTicket> for Pocket {
    ghost from_gives = { λ ticket pocket. pocket ≡ pockets.Landed ticket };

    fn from(ticket: LandedTicket) -> Pocket {
        Pocket::Landed(ticket)
    }
}

/// A pocket without such a ticket comes back whole.
impl TryFrom<Pocket> for OutwardTicket {
    type Error = Pocket;

    ghost try_from_gives = { λ pocket r. MatchResult r (λ ticket. pocket ≡ pockets.Outward ticket) (λ other. other ≡ pocket) };

    fn try_from(pocket: Pocket) -> Result<OutwardTicket, Pocket> {
        match pocket {
            Pocket::Outward(ticket) => Ok(ticket),
            other => Err(other),
        }
    }
}

/// A pocket without such a ticket comes back whole.
impl TryFrom<Pocket> for LandedTicket {
    type Error = Pocket;

    ghost try_from_gives = { λ pocket r. MatchResult r (λ ticket. pocket ≡ pockets.Landed ticket) (λ other. other ≡ pocket) };

    fn try_from(pocket: Pocket) -> Result<LandedTicket, Pocket> {
        match pocket {
            Pocket::Landed(ticket) => Ok(ticket),
            another => Err(another),
        }
    }
}

/// Spends the ticket of a step that is no landing.
fn give_back<S: Store>(idle: &mut Browser<S>, step: Step)
    requires { Unlanded step }
{
    match step {
        Step::Standing => {}
        Step::Outward(ticket) => {
            let _ = idle.give_up(ticket);
        }
        Step::Landed(_) => unreachable(),
    }
}

/// Spends a landed ticket where there are no decks. A follow never lands.
fn follow_nowhere<S: Store>(idle: &mut Browser<S>, ticket: LandedTicket) {
    match idle.follow(&FileShelf::open(b""), ticket) {
        Ok(step) => give_back(idle, step),
        Err(_) => {}
    }
}

impl Pocket {
    /// Spends the ticket, if there is one, at a browser without an errand, which turns it down.
    pub fn empty(self) {
        let mut none = [0; 0];
        let mut idle = Browser::new(0, PackedRun::new(&mut none));
        match self {
            Pocket::Empty => {}
            Pocket::Outward(ticket) => {
                let _ = idle.give_up(ticket);
            }
            Pocket::Landed(ticket) => follow_nowhere(&mut idle, ticket),
        }
    }
}
