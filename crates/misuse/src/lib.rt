//! Users of tickets. Each spends what it was given: where one lets a ticket go, the proof fails.
#![tactic(auto)]

ghost use Rattle.std.specs.Prelude.{◌≡◌, []};
ghost use Rattle.machine.specs.Answer.{done, tells};
ghost use Rattle.machine.specs.Call.{give_up, follow};
ghost use Rattle.machine.specs.Lives.{Worked};
ghost use Rattle.browser.specs.Meaning.{state_of, over};
ghost use Rattle.browser.specs.Calls.{alone, before};
ghost use Rattle.browser.specs.Answers.{done_answer, length_answer, step_answer};
ghost use Rattle.misuse.specs.Users.{started, after_start, copying, copied, walk};

use browser::{Browser, LandedTicket, OutwardTicket, Step};
use decks::Shelf;
use faults::CallFault;
use store::Store;

/// Sets out, and gives up: nothing has changed then.
pub fn turned_back<S: Store>(browser: &mut Browser<S>, address: &[u8]) -> Result<(), CallFault>
    ensures same { state_of S.Store.meaning browser.new ≡ state_of S.Store.meaning browser.old }
    ensures answer { done_answer result ≡ after_start (state_of S.Store.meaning browser.old) address.now done }
{
    let outward = browser.start(address)?;
    browser.give_up(outward)
}

/// Sets out, asks for the target, and gives up whatever was answered: only the buffer has changed then.
pub fn looked_up<S: Store>(
    browser: &mut Browser<S>,
    address: &[u8],
    buf: &mut [u8],
) -> Result<usize, CallFault>
    ensures same { state_of S.Store.meaning browser.new ≡ state_of S.Store.meaning browser.old }
    ensures answer { length_answer result ≡ after_start (state_of S.Store.meaning browser.old) address.now (copying address.now buf.old) }
    ensures bytes { buf.new ≡ started (state_of S.Store.meaning browser.old) address.now (copied address.now buf.old) buf.old buf.old }
{
    let ticket = browser.start(address)?;
    let len = browser.target(&ticket, buf);
    browser.give_up(ticket)?;
    len
}

/// Gives up a ticket that it was handed.
pub fn handed_back<S: Store>(browser: &mut Browser<S>, held: OutwardTicket) -> Result<(), CallFault>
    ensures { Worked (over S.Store.meaning S.Store.limits) browser.old (alone (give_up held.number)) browser.new (done_answer result) [] }
{
    browser.give_up(held)
}

/// Follows by a ticket that it was handed.
pub fn followed<S: Store, H: Shelf>(
    browser: &mut Browser<S>,
    shelf: &H,
    landed: LandedTicket,
) -> Result<Step, CallFault>
    ensures { Worked (over S.Store.meaning S.Store.limits) browser.old (before (follow landed.number) (H.Shelf.decks shelf.now)) browser.new (step_answer result) [] }
{
    browser.follow(shelf, landed)
}

/// Sets out, arrives, and follows where it landed. A ticket to go on with is handed on.
pub fn walked<S: Store, H: Shelf>(
    browser: &mut Browser<S>,
    shelf: &H,
    address: &[u8],
) -> Result<Step, CallFault>
    ensures { tells (state_of S.Store.meaning browser.new) (step_answer result) [] ≡ walk (S.Store.limits browser.old.store) (state_of S.Store.meaning browser.old) (H.Shelf.decks shelf.now) address.now }
{
    let begun = browser.start(address)?;
    match browser.arrive(shelf, begun)? {
        Step::Standing => Ok(Step::Standing),
        Step::Outward(ahead) => Ok(Step::Outward(ahead)),
        Step::Landed(arrived) => browser.follow(shelf, arrived),
    }
}
