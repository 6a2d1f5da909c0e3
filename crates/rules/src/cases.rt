// The worked cases, as one theorem.
ghost use Rattle.rules.specs.Bench.{Bench, PlayIsARun};
ghost use Rattle.rules.specs.Tour.{Tour};
ghost use Rattle.rules.specs.Further.{Further};

// What calls are answered on new chips, computed from the rules.
pub fn bench_cases()
    ensures { Bench }
{}

// Calls that are played as the cases are make a run.
pub fn play_is_a_run()
    ensures { PlayIsARun }
{}

// More of them: every command, and every refusal that a chip gives.
pub fn more_cases()
    ensures { Tour }
{}

// More of area B, and a copy-back that is cut off.
pub fn further_cases()
    ensures { Further }
{}
