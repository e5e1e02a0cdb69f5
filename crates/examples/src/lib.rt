//! Worked examples of the definitions, proved as one list.
#![tactic(auto)]

ghost use Rattle.examples.specs.Examples.{WorkedExamples};

/// Does nothing: its contract is the list.
pub fn worked_examples()
    ensures { WorkedExamples }
{}
