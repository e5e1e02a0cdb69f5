//! Tickets: of two types that do not mix, each let go only once it is spent. Only a browser makes one.
ghost use Rattle.std.specs.Prelude.{◌≡◌, true, false};

use std::marker::PhantomData;

/// Of a setting out: it arrives or is given up, and until then it can be asked its target.
pub struct Outward;

/// Of an arrival at a card with an enter task: it is followed.
pub struct Landed;

/// A ticket of a kind, by its number.
pub struct Ticket<K> {
    pub(crate) number: u8,
    pub(crate) spent: bool,
    kind: PhantomData<K>,
}

/// What a setting out answers.
pub type OutwardTicket = Ticket<Outward>;

/// What an arrival that is to be followed answers.
pub type LandedTicket = Ticket<Landed>;

impl<K> Drop for Ticket<K> {
    fn drop(self)
        requires { self.spent ≡ true }
    {
        let Ticket {
            number: _,
            spent: _,
            kind: _,
        } = self;
    }
}

impl<K> Ticket<K> {
    /// A ticket of this number, not spent yet.
    pub(crate) fn issue(number: u8) -> Ticket<K>
        ensures number { result.number ≡ number }
        ensures fresh { result.spent ≡ false }
    {
        Ticket {
            number,
            spent: false,
            kind: PhantomData,
        }
    }

    /// Spends the ticket, and answers its number.
    pub(crate) fn spend(self) -> u8
        ensures { result ≡ self.number }
    {
        let mut ticket = self;
        ticket.spent = true;
        ticket.number
    }
}

/// Where a browser is after an arrival or a task: it stands at a card, or there is a ticket to be spent.
#[derive(Drop)]
pub enum Step {
    /// It stands at the current card.
    Standing,
    /// It has set out.
    Outward(OutwardTicket),
    /// It has landed at a card whose enter task is still to be taken.
    Landed(LandedTicket),
}
