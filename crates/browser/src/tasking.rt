//! Press and follow: the calls that take a task at the current card.
ghost use Rattle.std.specs.Prelude.{◌≡◌, []};
ghost use Rattle.address.specs.Meaning.{address_of};
ghost use Rattle.faults.specs.Told.{caller};
ghost use Rattle.machine.specs.Answer.{tells};
ghost use Rattle.machine.specs.Call.{press, follow};
ghost use Rattle.machine.specs.Going.{settle};
ghost use Rattle.machine.specs.Lives.{Worked};
ghost use Rattle.machine.specs.Taking.{take_task};
ghost use Rattle.places.specs.Places.{meant_task};
ghost use Rattle.browser.specs.Meaning.{state_of, over};
ghost use Rattle.browser.specs.Calls.{before};
ghost use Rattle.browser.specs.Answers.{step_answer, StepUnspent};

use super::Browser;
use crate::ticket::{LandedTicket, OutwardTicket, Step};
use address::Address;
use decks::Shelf;
use errands::{Errand, Need, Passed};
use faults::{CallFault, Caller, placed};
use places::{Task, find_place};
use store::Store;
use taking::take;

impl<S: Store> Browser<S> {
    /// Takes a task at the current address. Any errand that led to it ends, and a fault changes nothing else.
    fn work_task<H: Shelf>(
        &mut self,
        current: &Address,
        task: &Task<H>,
        by: Caller,
    ) -> Result<Step, CallFault>
        ensures taken { tells (state_of S.Store.meaning self.new) (step_answer result) [] ≡ settle (caller by) (state_of S.Store.meaning self.old) [] (take_task (S.Store.limits self.old.store) (state_of S.Store.meaning self.old) (address_of current.now) (meant_task task.now)) }
        ensures limits { S.Store.limits self.new.store ≡ S.Store.limits self.old.store }
        ensures unspent { StepUnspent result }
    {
        self.errand = Errand::Idle;
        let taken = placed(by, take(&mut self.store, &self.history, current, task))?;
        match taken {
            None => Ok(Step::Standing),
            Some(trip) => {
                self.errand = Errand::Out(trip);
                Ok(Step::Outward(OutwardTicket::issue(self.number)))
            }
        }
    }

    /// Takes the task of the active binding of a name on the current card. Refused with 32, 31, 34 or 11, and for the
    /// task with 21, 22, 23 or 24.
    pub fn press<H: Shelf>(&mut self, shelf: &H, name: &[u8]) -> Result<Step, CallFault>
        ensures worked { Worked (over S.Store.meaning S.Store.limits) self.old (before (press name.now) (H.Shelf.decks shelf.now)) self.new (step_answer result) [] }
        ensures unspent { StepUnspent result }
    {
        let _ = self.errand.decide(self.number, Need::Free)?;
        let current = self.history.newest().ok_or(CallFault::NoCard)?;
        let place = find_place(shelf, &current).ok_or(CallFault::DeckGone)?;
        let task = place.bound_task(name).ok_or(CallFault::NoBinding)?;
        self.work_task(&current, &task, Caller::Press)
    }

    /// Takes the enter task of the current card for the way of the landing, or stands where there is none.
    /// Refused with 33. Fails with 34, or for the task with 21, 22, 23 or 24: then the errand ends, and all else stays.
    /// The ticket is spent anyway.
    pub fn follow<H: Shelf>(&mut self, shelf: &H, ticket: LandedTicket) -> Result<Step, CallFault>
        ensures worked { Worked (over S.Store.meaning S.Store.limits) self.old (before (follow ticket.number) (H.Shelf.decks shelf.now)) self.new (step_answer result) [] }
        ensures unspent { StepUnspent result }
    {
        let Passed::Landed(way) = self
            .errand
            .decide(self.number, Need::Landed(ticket.spend()))?
        else {
            unreachable()
        };
        self.errand = Errand::Idle;
        let current = self.history.newest().ok_or(CallFault::DeckGone)?;
        let place = find_place(shelf, &current).ok_or(CallFault::DeckGone)?;
        let Some(task) = place.entered_task(way) else {
            return Ok(Step::Standing);
        };
        self.work_task(&current, &task, Caller::Follow)
    }
}
