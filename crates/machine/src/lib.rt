//! The machine of the browser: its state, its calls and what each of them does, as definitions, and the
//! laws over whole runs of calls, each proved on the contract of a function.
#![tactic(auto)]

ghost use Rattle.store.specs.Limits.{Limits};
ghost use Rattle.machine.specs.State.{State};
ghost use Rattle.machine.specs.Lives.{means};
ghost use Rattle.machine.specs.Isolated.{Isolated, LivesAre};
ghost use Rattle.machine.specs.Happens.{RoundsHappen};
ghost use Rattle.machine.specs.Corners.{Corners};
ghost use Rattle.machine.specs.Examples.{MachineExamples};

pub use decks::Way;

/// A kind of browser: each value of it means a state of the machine, and its store has limits.
pub trait Machine {
    ghost state: { Self → State };

    ghost limits: { Self → Limits };
}

/// Rounds that begin at a newcontext card do not know the past, and struck calls leave no trace: the whole
/// law, for any two kinds of browser.
pub fn isolated<P: Machine, Q: Machine>()
    ensures { Isolated (means P.Machine.state P.Machine.limits) (means Q.Machine.state Q.Machine.limits) }
{}

/// Every list of calls has a life.
pub fn lives_are()
    ensures { LivesAre }
{}

/// Rounds do begin, and what they hide is there: two handhelds with unlike pasts answer apart before a round,
/// alike within it, and apart still at a card without the mark.
pub fn rounds_happen()
    ensures { RoundsHappen }
{}

/// What striking takes and what it never takes, with corner cases.
pub fn struck_corners()
    ensures { Corners }
{}

/// The worked examples of the machine hold.
pub fn examples_stand()
    ensures { MachineExamples }
{}
