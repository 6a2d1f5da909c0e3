// What a call promises is one step of the rules. A theorem is the promise of a function that does nothing else.
ghost use Rattle.chip.specs.Calls.{CallsAreSteps};

// The promise of the seven calls, and the rules' own step: each follows from the other.
pub fn calls_are_steps()
    ensures { CallsAreSteps }
{}
