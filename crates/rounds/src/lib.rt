//! One call worked on a browser, and one on each of two: what nobody can learn of an earlier round by such calls.
#![tactic(auto)]

ghost use Rattle.std.specs.Prelude.{◌≡◌};
ghost use Rattle.machine.specs.State.{fresh};
ghost use Rattle.machine.specs.Lives.{Handheld};
ghost use Rattle.machine.specs.Isolated.{Isolated};
ghost use Rattle.browser.specs.Meaning.{state_of, over};
ghost use Rattle.rounds.specs.Asks.{call_of, buffers_of};
ghost use Rattle.rounds.specs.Answered.{Answered};
ghost use Rattle.rounds.specs.Alike.{AnsweredAlike};
ghost use Rattle.rounds.specs.Whole.{Whole};
ghost use Rattle.rounds.specs.Handhelds.{StaysHandheld};

use browser::Browser;
use decks::Shelf;
use store::Store;

mod asked;

pub use asked::{Ask, Reply};

/// A browser that is taken up new: a handheld, which stays one whatever it is asked.
pub fn take_up<S: Store>(number: u8, store: S) -> Browser<S>
    ensures state { state_of S.Store.meaning result ≡ fresh number }
    ensures limits { S.Store.limits result.store ≡ S.Store.limits store }
    ensures handheld { Handheld (over S.Store.meaning S.Store.limits) result }
    ensures stays { StaysHandheld (over S.Store.meaning S.Store.limits) }
{
    Browser::new(number, store)
}

/// Works one call. A call without use for the shelf or the buffer does not look at it.
pub fn work<S: Store, H: Shelf>(
    browser: &mut Browser<S>,
    shelf: &H,
    ask: Ask<'_>,
    buf: &mut [u8],
) -> Reply
    ensures { Answered (over S.Store.meaning S.Store.limits) browser.old ask.entry (H.Shelf.decks shelf.now) buf.old browser.new result buf.new }
{
    match ask {
        Ask::New(number) => {
            browser.renew(number);
            Reply::Done
        }
        Ask::Start(address) => browser.start(address).into(),
        Ask::Press(name) => browser.press(shelf, name).into(),
        Ask::Target(ticket) => browser.target(ticket, buf).into(),
        Ask::Arrive(ticket) => browser.arrive(shelf, ticket).into(),
        Ask::GiveUp(ticket) => browser.give_up(ticket).into(),
        Ask::Follow(ticket) => browser.follow(shelf, ticket).into(),
        Ask::TypeIn(name, value) => browser.type_in(name, value).into(),
        Ask::Show => browser.show(shelf, buf).into(),
        Ask::Fill(text) => browser.fill(text, buf).into(),
        Ask::Value(name) => browser.value(name, buf).into(),
        Ask::Address => browser.address(buf).into(),
    }
}

/// Works one call on each of two browsers. It stands alone, since the check proves these two promises by itself, and the
/// laws of `work_both` are read off them.
fn ask_both<P: Store, Q: Store, H: Shelf, K: Shelf>(
    one: &mut Browser<P>,
    shelf: &H,
    ask: Ask<'_>,
    buf: &mut [u8],
    two: &mut Browser<Q>,
    other: &K,
    same: Ask<'_>,
    copy: &mut [u8],
) -> (Reply, Reply)
    ensures first { Answered (over P.Store.meaning P.Store.limits) one.old ask.entry (H.Shelf.decks shelf.now) buf.old one.new result.0 buf.new }
    ensures second { Answered (over Q.Store.meaning Q.Store.limits) two.old same.entry (K.Shelf.decks other.now) copy.old two.new result.1 copy.new }
{
    let x = work(one, shelf, ask, buf);
    let y = work(two, other, same, copy);
    (x, y)
}

/// Works one call on each of two browsers, over any two kinds of store and any two kinds of shelf.
///
/// Where they stand alike, or begin a round alike, whatever lies behind each, the same call is answered alike. And the
/// whole law: rounds do not know the past, and what came to nothing leaves nothing.
pub fn work_both<P: Store, Q: Store, H: Shelf, K: Shelf>(
    one: &mut Browser<P>,
    shelf: &H,
    ask: Ask<'_>,
    buf: &mut [u8],
    two: &mut Browser<Q>,
    other: &K,
    same: Ask<'_>,
    copy: &mut [u8],
) -> (Reply, Reply)
    ensures first { Answered (over P.Store.meaning P.Store.limits) one.old ask.entry (H.Shelf.decks shelf.now) buf.old one.new result.0 buf.new }
    ensures second { Answered (over Q.Store.meaning Q.Store.limits) two.old same.entry (K.Shelf.decks other.now) copy.old two.new result.1 copy.new }
    ensures alike { AnsweredAlike (over P.Store.meaning P.Store.limits) (over Q.Store.meaning Q.Store.limits) one.old two.old (call_of ask.entry (H.Shelf.decks shelf.now) buf.old) (call_of same.entry (K.Shelf.decks other.now) copy.old) one.new two.new result.0 result.1 (buffers_of ask.entry buf.new) (buffers_of same.entry copy.new) }
    ensures isolated { Isolated (over P.Store.meaning P.Store.limits) (over Q.Store.meaning Q.Store.limits) }
    ensures whole { Whole }
{
    ask_both(one, shelf, ask, buf, two, other, same, copy)
}
