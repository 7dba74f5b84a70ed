// Worked examples of orders, their costs and their refusals.
#![tactic(auto)]

ghost use Rattle.examples.specs.Examples.{WorkedExamples};

// The function does nothing: its contract says that every example of the list holds.
pub fn worked_examples_hold()
    ensures { WorkedExamples }
{}
