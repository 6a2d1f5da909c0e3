// The run of a trace on a chip.
ghost use Rattle.std.specs.Prelude.{◌≡◌, ℕ, ◌+◌, ◌-◌, ◌≤◌, not, ◌&&◌, ◌++◌, length, take, drop, ◌==◌, nat_le};
ghost use Rattle.chip.specs.Calls.{seen};
ghost use Rattle.runner.specs.Results.{bad_bytes};
ghost use Rattle.runner.specs.Played.{Ran, AcceptedIsPlayed};

use crate::results::tell;
use arrays::CellArray;
use chip::Chip;
use records::reader::first_record;
use refusals::Refusal;

// Whether one more record is looked at: some of the trace is left, and room for a result.
fn goes_on(rest: &[u8], room: usize) -> bool
    ensures { result ≡ (not (length rest.now == 0) && nat_le 4 room) }
{
    !rest.is_empty() && room >= 4
}

// What a run comes to at a bad record: its result is written, and it is not used.
fn stop_at_bad(trace: &[u8], rest: &[u8], results: &mut [u8], written: usize) -> (usize, usize)
    requires written_in_bounds { written + 4 ≤ length results.old }
    requires rest_in_bounds { length rest.now ≤ length trace.now }
    ensures used { result.0 ≡ length trace.now - length rest.now }
    ensures count { result.1 ≡ written + 4 }
    ensures told { results.new ≡ take written results.old ++ (bad_bytes ++ drop (written + 4) results.old) }
{
    let after = tell(results, written, Err(Refusal::BadRecord));
    (trace.len() - rest.len(), after)
}

// Plays the records of a trace one after another, until the trace ends, a record is bad, or no room is left for one more result.
// How many bytes of the trace were used, and how many result bytes written: the pair is a rule of the project.
pub fn run<A: CellArray>(chip: &mut Chip<A>, trace: &[u8], results: &mut [u8]) -> (usize, usize)
    ensures ran { Ran A.Stored.Word.kind chip.old.opening (seen A.meaning chip.old) trace.now results.old result.0 result.1 results.new (seen A.meaning chip.new) }
    ensures accepted { AcceptedIsPlayed A.Stored.Word.kind chip.old.opening (seen A.meaning chip.old) trace.now results.old result.0 result.1 results.new (seen A.meaning chip.new) }
    ensures rest { A.rest chip.new.array ≡ A.rest chip.old.array }
    ensures opening { chip.new.opening ≡ chip.old.opening }
{
    let mut left = trace;
    let mut written = 0;
    // it looks for room for a result before it takes a record, and says where it stopped, so `Records`
    // would not serve; no index is counted
    while goes_on(left, results.len() - written) {
        let Some((call, next)) = first_record(left) else {
            return stop_at_bad(trace, left, results, written);
        };
        let answer = chip.play(call);
        written = tell(results, written, answer);
        left = next;
    }
    (trace.len() - left.len(), written)
}
