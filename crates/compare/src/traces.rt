// Two traces, each played on its chip, and the chips compared.
ghost use Rattle.std.specs.Prelude.{◌≡◌, ℕ, IfOk, IfErr, OnErr};
ghost use Rattle.chip.specs.Calls.{seen};
ghost use Rattle.records.specs.Readings.{Reading};
ghost use Rattle.compare.specs.Compared.{TracesCompared};
ghost use Rattle.compare.specs.Errors.{Unread, TracesRefused};

use crate::compare::{Comparison, compare_calls};
use crate::error::{CompareError, Side};
use arrays::CellArray;
use chip::Chip;
use records::call::Call;
use records::reader::read_trace;
use std::alloc::Global;

// The calls of one side's trace.
fn read_side(heap: Global, trace: &[u8], side: Side) -> Result<Vec<Call>, CompareError>
    ensures read { IfOk result (λ v. Reading trace.now v.items) }
    ensures unread { IfErr result (λ e. Unread trace.now side e) }
{
    read_trace(heap, trace).map_err(|error| CompareError::NotRead { side, error })
}

// Reads both traces, plays the calls of each on its chip, and answers both verdicts. A trace that is not accepted is refused before anything
// is played. Each chip stands beside its trace, so that the contract can speak of `one.old` and `one.new`.
pub fn compare_traces<A: CellArray, B: CellArray<Stored = A::Stored>>(
    heap: Global,
    one: &mut Chip<A>,
    trace: &[u8],
    other: &mut Chip<B>,
    other_trace: &[u8],
) -> Result<Comparison, CompareError>
    ensures compared { IfOk result (λ v. TracesCompared A.Stored.Word.kind one.old.opening other.old.opening (seen A.CellArray.meaning one.old) trace.now v.answers.items (seen A.CellArray.meaning one.new) (seen B.CellArray.meaning other.old) other_trace.now v.other_answers.items (seen B.CellArray.meaning other.new) v.answers_equal v.cells_equal) }
    ensures untouched { OnErr result ((one.new ≡ one.old) × (other.new ≡ other.old)) }
    ensures error { IfErr result (λ e. TracesRefused (A.CellArray.meaning one.old.array).holds.shape.blocks trace.now other_trace.now e) }
    ensures rest { A.CellArray.rest one.new.array ≡ A.CellArray.rest one.old.array }
    ensures other_rest { B.CellArray.rest other.new.array ≡ B.CellArray.rest other.old.array }
    ensures opening { one.new.opening ≡ one.old.opening }
    ensures other_opening { other.new.opening ≡ other.old.opening }
{
    let calls = read_side(heap, trace, Side::One)?;
    let other_calls = read_side(heap, other_trace, Side::Other)?;
    compare_calls(heap, one, &calls, other, &other_calls)
}
