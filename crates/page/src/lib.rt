//! The page of a card: its filled body, and under it a line for each label that stands.
//!
//! A line that was begun and not closed is withdrawn on every way out, by a guard over the length
//! of the page.
#![tactic(auto)]

ghost use Rattle.std.specs.Prelude.{◌≡◌, ◌-◌, ◌≤◌, ◌++◌, length, take, replicate, if◌then◌else◌};
ghost use Rattle.decks.specs.Allowances.{ShortText};
ghost use Rattle.decks.specs.Model.{active};
ghost use Rattle.decks.specs.Views.{binding_of};
ghost use Rattle.machine.specs.Page.{lines_of, fitting, together};
ghost use Rattle.places.specs.Places.{place_of};
ghost use Rattle.page.specs.Lines.{whole_line, line_answer, lengthened, outcome_of, page_after};
ghost use Rattle.page.specs.Shown.{page_answer, page_bytes};

use decks::{Active, BindingView, Kind, Shelf};
use places::ShelfPlace;
use store::Store;
use text::{Mode, TextFault, fill};
use variables::Variables;

/// A page that was written: its length, and how many labels stand on it.
#[derive(Clone, Copy)]
pub struct Shown {
    pub len: usize,
    pub labels: usize,
}

/// What became of a label.
#[derive(Clone, Copy)]
enum Outcome {
    Stands,
    LeftOut,
    NoRoom,
}

/// A line of the page, from its beginning on: unless it is closed, the page gets its former length
/// back.
struct Line<'a> {
    len: &'a mut usize,
    former: usize,
    closed: bool,
}

impl Drop for Line<'_> {
    fn drop(self)
        ensures { self.exit.0.now ≡ (if self.entry.closed then self.entry.len.now else self.entry.former) }
    {
        let Line {
            len,
            former,
            closed,
        } = self;
        if !closed {
            *len = former;
        }
    }
}

// The buffer and the page's length go side by side here and below: a struct of both was tried, and has to promise in
// each contract that its buffer is still the same one, of the same length, where `within` is one fact.

/// Writes the line of a label after the page, or none.
fn write_line<S: Store>(
    store: &S,
    label: &[u8],
    buf: &mut [u8],
    len: &mut usize,
) -> Result<(), TextFault>
    requires short { ShortText label.now }
    requires within { len.old ≤ length buf.old }
    ensures answer { result ≡ line_answer (S.Store.meaning store.now) label.now (length buf.old - len.old) }
    ensures page { take len.new buf.new ≡ lengthened result (take len.old buf.old) (whole_line (S.Store.meaning store.now) label.now) }
    ensures within { len.new ≤ length buf.new }
{
    let former = *len;
    let mut line = Line {
        len,
        former,
        closed: false,
    };
    if former >= buf.len() {
        return Err(TextFault::ShortBuffer);
    }
    buf[former] = b'\n';
    *line.len += 1;
    let values = Variables { store };
    let filled = fill(label, &values, Mode::Plain, &mut buf[former + 1..])?;
    *line.len += filled;
    line.closed = true;
    Ok(())
}

/// Writes the label of a binding after the page, unless its task is a noop.
fn write_label<S: Store, H: Shelf>(
    store: &S,
    shelf: &H,
    binding: &BindingView,
    buf: &mut [u8],
    len: &mut usize,
) -> Outcome
    requires short { ShortText (binding_of (H.Shelf.parts shelf.now) binding.now).label }
    requires within { len.old ≤ length buf.old }
    ensures outcome { result ≡ outcome_of (S.Store.meaning store.now) (binding_of (H.Shelf.parts shelf.now) binding.now).label (binding_of (H.Shelf.parts shelf.now) binding.now).task.kind (length buf.old - len.old) }
    ensures page { take len.new buf.new ≡ page_after result (take len.old buf.old) (whole_line (S.Store.meaning store.now) (binding_of (H.Shelf.parts shelf.now) binding.now).label) }
    ensures within { len.new ≤ length buf.new }
{
    match shelf.task(binding.task).kind {
        Kind::Noop => Outcome::LeftOut,
        Kind::Go | Kind::Prev | Kind::Refresh => {
            match write_line(store, binding.label.bytes, buf, len) {
                Ok(()) => Outcome::Stands,
                Err(TextFault::Broken(_)) => Outcome::LeftOut,
                Err(TextFault::ShortBuffer | TextFault::TooLong) => Outcome::NoRoom,
            }
        }
    }
}

/// Writes the labels of the active bindings after the page, and answers how many stand. The first
/// that does not fit ends the page.
fn write_labels<S: Store, H: Shelf>(
    store: &S,
    place: &ShelfPlace<H>,
    buf: &mut [u8],
    len: &mut usize,
) -> usize
    requires { len.old ≤ length buf.old }
    ensures labels { result ≡ length (fitting (length buf.old - len.old) (lines_of (S.Store.meaning store.now) (active (place_of place.now).deck (place_of place.now).card))) }
    ensures page { take len.new buf.new ≡ take len.old buf.old ++ together (fitting (length buf.old - len.old) (lines_of (S.Store.meaning store.now) (active (place_of place.now).deck (place_of place.now).card))) }
    ensures within { len.new ≤ length buf.new }
{
    let mut labels = 0;
    for binding in Active::of(place.shelf, &place.place.deck, &place.place.card) {
        match write_label(store, place.shelf, &binding, buf, len) {
            Outcome::Stands => labels += 1,
            Outcome::LeftOut => {}
            Outcome::NoRoom => return labels,
        }
    }
    labels
}

/// Fills the bytes with spaces.
fn blank(rest: &mut [u8])
    ensures { rest.new ≡ replicate (length rest.old) 32 }
{
    rest.fill(b' ');
}

/// Writes the page of a place: the filled body, and for each active binding that is no noop a line
/// with its label; a label that breaks is left out, and the first line that does not fit ends the
/// page. The rest of the buffer becomes spaces.
///
/// Refused, in this order and with `buf` as it was: a broken body, a buffer too short for the body.
pub fn write_page<S: Store, H: Shelf>(
    store: &S,
    place: &ShelfPlace<H>,
    buf: &mut [u8],
) -> Result<Shown, TextFault>
    ensures answer { result ≡ page_answer (S.Store.meaning store.now) (place_of place.now) (length buf.old) }
    ensures bytes { buf.new ≡ page_bytes (S.Store.meaning store.now) (place_of place.now) buf.old }
{
    let values = Variables { store };
    let mut len = fill(place.place.card.body.bytes, &values, Mode::Plain, buf)?;
    let labels = write_labels(store, place, buf, &mut len);
    blank(&mut buf[len..]);
    Ok(Shown { len, labels })
}
