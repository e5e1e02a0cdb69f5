//! Taking a task: its assignments are filled against the variables as they are, and so is the address of a go.
//! What is taken makes the browser stand or sets it out; a fault changes nothing.
#![tactic(auto)]

ghost use Rattle.std.specs.Prelude.{◌≡◌, ℕ, ◌<◌, ◌≤◌, true, false, [], length, Some, None, MatchOption, MatchResult, OnSome, OnErr};
ghost use Rattle.names.specs.Names.{is_name};
ghost use Rattle.store.specs.Vars.{look, size};
ghost use Rattle.text.specs.Fill.{filled, broken_at};
ghost use Rattle.address.specs.Meaning.{address_of};
ghost use Rattle.history.specs.Kept.{kept};
ghost use Rattle.decks.specs.declared.Kind.TheVariants.{Go, Prev, Refresh};
ghost use Rattle.assignments.specs.Pairs.{name_of, value_of};
ghost use Rattle.assignments.specs.Listed.{listed};
ghost use Rattle.decks.specs.Views.{assignment_of};
ghost use Rattle.decks.specs.Allowances.{AssignmentAllowed};
ghost use Rattle.faults.specs.Told.{task_fault};
ghost use Rattle.machine.specs.Assigning.{plain, fault_of, joined};
ghost use Rattle.machine.specs.State.{Pairs, Errand};
ghost use Rattle.machine.specs.Taking.{fault_in, pairs_in, take_kind, take_task};
ghost use Rattle.places.specs.Places.{meant_task};
ghost use Rattle.taking.specs.Short.{short_answer, short_bytes};
ghost use Rattle.taking.specs.Taking.{at, leads, destined, set_out, made_stand, taken_as};

use address::Address;
use assignments::{Assignments, Pair};
use decks::{AssignmentView, Kind, Run, Shelf, Way};
use errands::Trip;
use faults::{Spot, TaskFault, Which, placed};
use history::History;
use places::Task;
use resolve::resolve;
use store::Store;
use text::{Mode, TextFault, fill};
use variables::Variables;

/// Fills a text into a buffer, and answers the length; nothing where the result does not fit.
fn fill_short<S: Store>(
    store: &S,
    text: &[u8],
    mode: Mode,
    buf: &mut [u8],
) -> Result<Option<usize>, TextFault>
    requires { length text.now ≤ 1024 }
    ensures answer { result ≡ short_answer (broken_at text.now) (filled (look (S.Store.meaning store.now)) mode text.now) buf.old }
    ensures bytes { buf.new ≡ short_bytes result (filled (look (S.Store.meaning store.now)) mode text.now) buf.old }
{
    let values = Variables { store };
    match fill(text, &values, mode, buf) {
        Ok(len) => Ok(Some(len)),
        Err(TextFault::TooLong | TextFault::ShortBuffer) => Ok(None),
        Err(broken) => Err(broken),
    }
}

/// The pair of assignment `k`, filled; nothing where its name result is no name.
pub fn filled_pair<S: Store>(
    store: &S,
    kind: Kind,
    k: u8,
    given: &AssignmentView,
) -> Result<Option<Pair>, TaskFault>
    requires { AssignmentAllowed (assignment_of given.now) }
    ensures { MatchResult result (λ o. (fault_of (S.Store.meaning store.now) kind k (assignment_of given.now) ≡ None) × MatchOption o (is_name (plain (S.Store.meaning store.now) (assignment_of given.now).name) ≡ false) (λ p. (is_name (plain (S.Store.meaning store.now) (assignment_of given.now).name) ≡ true) × (name_of p ≡ plain (S.Store.meaning store.now) (assignment_of given.now).name) × (value_of p ≡ plain (S.Store.meaning store.now) (assignment_of given.now).value))) (λ f. fault_of (S.Store.meaning store.now) kind k (assignment_of given.now) ≡ Some (task_fault f)) }
{
    let mut name = [0; 16];
    let mut value = [0; 64];
    let name_len = placed(
        Spot {
            text: Which::Name(k),
            kind,
        },
        fill_short(store, given.name.bytes, Mode::Plain, &mut name),
    )?;
    let value_len = placed(
        Spot {
            text: Which::Value(k),
            kind,
        },
        fill_short(store, given.value.bytes, Mode::Plain, &mut value),
    )?;
    let (Some(name_len), Some(value_len)) = (name_len, value_len) else {
        return Err(TaskFault::TooLong);
    };
    Ok(Pair::new(&name[..name_len], &value[..value_len]).ok())
}

/// Adds the pair of assignment `k`, filled, to those before it; it is dropped where its name result is no name.
fn add_filled<S: Store>(
    store: &S,
    kind: Kind,
    k: u8,
    given: &AssignmentView,
    pairs: &mut Assignments,
) -> Result<(), TaskFault>
    requires allowed { AssignmentAllowed (assignment_of given.now) }
    requires room { size (listed pairs.old) < 16 }
    ensures { MatchResult result (λ _. (fault_of (S.Store.meaning store.now) kind k (assignment_of given.now) ≡ None) × (listed pairs.new ≡ joined (listed pairs.old) (plain (S.Store.meaning store.now) (assignment_of given.now).name) (plain (S.Store.meaning store.now) (assignment_of given.now).value))) (λ f. fault_of (S.Store.meaning store.now) kind k (assignment_of given.now) ≡ Some (task_fault f)) }
{
    if let Some(pair) = filled_pair(store, kind, k, given)? {
        pairs.add(pair);
    }
    Ok(())
}

/// The pairs of all assignments of a task, filled against the same variables, or the first fault.
fn gather<S: Store, H: Shelf>(store: &S, task: &Task<H>) -> Result<Assignments, TaskFault>
    ensures { MatchResult result (λ a. (fault_in (S.Store.meaning store.now) (meant_task task.now) ≡ None) × (listed a ≡ pairs_in (S.Store.meaning store.now) (meant_task task.now))) (λ f. fault_in (S.Store.meaning store.now) (meant_task task.now) ≡ Some (task_fault f)) }
{
    let mut pairs = Assignments::none();
    let Run { first, count } = task.view.assignments;
    for k in 0..count {
        let given = task.shelf.assignment(first as usize + k as usize);
        add_filled(store, task.view.kind, k, &given, &mut pairs)?;
    }
    Ok(pairs)
}

/// Where the address text of a go leads from the current address, filled in address mode.
fn destination<S: Store>(store: &S, current: &Address, text: &[u8]) -> Result<Address, TaskFault>
    requires { length text.now ≤ 1024 }
    ensures { (ps : Pairs) → destined result ps ≡ leads (S.Store.meaning store.now) (address_of current.now) text.now ps }
{
    let mut buf = [0; 128];
    let spot = Spot {
        text: Which::Address,
        kind: Kind::Go,
    };
    let Some(len) = placed(spot, fill_short(store, text, Mode::Address, &mut buf))? else {
        return Err(TaskFault::Unlawful);
    };
    Ok(resolve(current, &buf[..len])?)
}

/// A go sets out for its address.
fn take_go<S: Store, H: Shelf>(
    store: &S,
    current: &Address,
    task: &Task<H>,
) -> Result<Trip, TaskFault>
    ensures { set_out result ≡ take_kind (S.Store.limits store.now) (at (S.Store.meaning store.now) []) (address_of current.now) (meant_task task.now) Go }
{
    let pairs = gather(store, task)?;
    let target = destination(store, current, task.view.address.bytes)?;
    Ok(Trip {
        way: Way::Forward,
        target,
        pairs,
    })
}

/// A prev sets out for the second address, if there is one, and else stands.
fn take_prev<S: Store, H: Shelf>(
    store: &S,
    history: &History,
    task: &Task<H>,
) -> Result<Option<Trip>, TaskFault>
    ensures { taken_as result (S.Store.meaning store.now) ≡ take_kind (S.Store.limits store.now) (at (S.Store.meaning store.now) (kept history.now)) [] (meant_task task.now) Prev }
{
    let Some(target) = history.second() else {
        return Ok(None);
    };
    let pairs = gather(store, task)?;
    Ok(Some(Trip {
        way: Way::Backward,
        target,
        pairs,
    }))
}

/// A refresh makes its assignments, if they fit, and stands.
fn take_refresh<S: Store, H: Shelf>(store: &mut S, task: &Task<H>) -> Result<(), TaskFault>
    ensures taken { made_stand result (S.Store.meaning store.new) ≡ take_kind (S.Store.limits store.old) (at (S.Store.meaning store.old) []) [] (meant_task task.now) Refresh }
    ensures limits { S.Store.limits store.new ≡ S.Store.limits store.old }
    ensures refused { OnErr result (store.new ≡ store.old) }
{
    let pairs = gather(store, task)?;
    pairs.make(store).map_err(|_| TaskFault::NoRoom)
}

/// Takes a task at the current address, after this history: the browser sets out on the trip, or it stands. Only a refresh that is made changes the store.
pub fn take<S: Store, H: Shelf>(
    store: &mut S,
    history: &History,
    current: &Address,
    task: &Task<H>,
) -> Result<Option<Trip>, TaskFault>
    ensures taken { taken_as result (S.Store.meaning store.new) ≡ take_task (S.Store.limits store.old) (at (S.Store.meaning store.old) (kept history.now)) (address_of current.now) (meant_task task.now) }
    ensures limits { S.Store.limits store.new ≡ S.Store.limits store.old }
    ensures kept { MatchResult result (λ t. OnSome t (store.new ≡ store.old)) (λ _. store.new ≡ store.old) }
{
    match task.view.kind {
        Kind::Noop => Ok(None),
        Kind::Go => Ok(Some(take_go(store, current, task)?)),
        Kind::Prev => take_prev(store, history, task),
        Kind::Refresh => {
            take_refresh(store, task)?;
            Ok(None)
        }
    }
}
