//! The calls that only read: target, show, fill, value and address. Each answers a length; show also how many labels
//! stand, and blanks the rest of the buffer, which the others leave.
ghost use Rattle.std.specs.Prelude.{◌≡◌, [], ◌∷◌};
ghost use Rattle.machine.specs.Call.{target, show, fill, value, address};
ghost use Rattle.machine.specs.Lives.{Worked};
ghost use Rattle.browser.specs.Meaning.{over};
ghost use Rattle.browser.specs.Calls.{lending, drawing};
ghost use Rattle.browser.specs.Answers.{length_answer, shown_answer};
ghost use Rattle.browser.specs.Copying.{copy_answer, copied};

use super::Browser;
use crate::ticket::OutwardTicket;
use decks::Shelf;
use errands::{Need, Passed};
use faults::{Asked, CallFault, Caller, Which, placed};
use names::is_storable_name;
use page::{Shown, write_page};
use places::find_place;
use store::Store;
use text::{Mode, Values};
use variables::Variables;

/// Copies the bytes to the front of the buffer, whose rest stays, and answers how many they are.
fn copy_out(bytes: &[u8], buf: &mut [u8]) -> Result<usize, CallFault>
    ensures answer { result ≡ copy_answer bytes.now buf.old }
    ensures bytes { buf.new ≡ copied bytes.now buf.old }
{
    if bytes.len() > buf.len() {
        return Err(CallFault::ShortBuffer);
    }
    buf[..bytes.len()].copy_from_slice(bytes);
    Ok(bytes.len())
}

impl<S: Store> Browser<S> {
    /// Copies the address that the errand leads to. Refused with 33 or 35.
    pub fn target(&self, ticket: &OutwardTicket, buf: &mut [u8]) -> Result<usize, CallFault>
        ensures { Worked (over S.Store.meaning S.Store.limits) self.now (lending (target ticket.now.number) buf.old) self.now (length_answer result) (buf.new ∷ []) }
    {
        match self.errand.decide(self.number, Need::Out(ticket.number))? {
            Passed::Out(trip) => copy_out(trip.target.as_bytes(), buf),
            Passed::Free | Passed::Landed(_) => unreachable(),
        }
    }

    /// Copies the value of a name, nothing where it is not set. Refused with 12 or 35.
    pub fn value(&self, name: &[u8], buf: &mut [u8]) -> Result<usize, CallFault>
        ensures { Worked (over S.Store.meaning S.Store.limits) self.now (lending (value name.now) buf.old) self.now (length_answer result) (buf.new ∷ []) }
    {
        if !is_storable_name(name) {
            return Err(CallFault::Unstorable);
        }
        copy_out(self.store.value(name), buf)
    }

    /// Copies the address of the current card. Refused with 31 or 35.
    pub fn address(&self, buf: &mut [u8]) -> Result<usize, CallFault>
        ensures { Worked (over S.Store.meaning S.Store.limits) self.now (lending address buf.old) self.now (length_answer result) (buf.new ∷ []) }
    {
        let current = self.history.newest().ok_or(CallFault::NoCard)?;
        copy_out(current.as_bytes(), buf)
    }

    /// Writes the page of the current card. Refused with 31, 34, 21 or, for the body alone, 35.
    pub fn show<H: Shelf>(&self, shelf: &H, buf: &mut [u8]) -> Result<Shown, CallFault>
        ensures { Worked (over S.Store.meaning S.Store.limits) self.now (drawing show (H.Shelf.decks shelf.now) buf.old) self.now (shown_answer result) (buf.new ∷ []) }
    {
        let current = self.history.newest().ok_or(CallFault::NoCard)?;
        let place = find_place(shelf, &current).ok_or(CallFault::DeckGone)?;
        let asked = Asked {
            text: Which::Body,
            call: Caller::Show,
        };
        Ok(placed(asked, write_page(&self.store, &place, buf))?)
    }

    /// Fills a text of the host's from the variables. Refused with 22, 21 or 35.
    pub fn fill(&self, text: &[u8], buf: &mut [u8]) -> Result<usize, CallFault>
        ensures { Worked (over S.Store.meaning S.Store.limits) self.now (lending (fill text.now) buf.old) self.now (length_answer result) (buf.new ∷ []) }
    {
        let asked = Asked {
            text: Which::Host,
            call: Caller::Fill,
        };
        let values = Variables { store: &self.store };
        Ok(placed(asked, text::fill(text, &values, Mode::Plain, buf))?)
    }
}
