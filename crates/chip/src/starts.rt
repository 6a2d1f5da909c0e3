// What a start looks at, and how it is refused.
ghost use Rattle.std.specs.Prelude.{◌≡◌, not, Err, nat_lt};
ghost use Rattle.arrays.specs.Meaning.{rows};
ghost use Rattle.rules.specs.Answering.{is_full, unless, done};
ghost use Rattle.rules.specs.Moving.{rows_for, start_refused};

use arrays::CellArray;
use refusals::Refusal;
use rules::control::{Control, Opening};
use rules::state::{Aim, State};

// Whether the array has the row: one comparison, as `arrays` has for its own memory.
pub(crate) fn has_row<A: CellArray>(array: &A, row: u32) -> bool
    ensures { result ≡ nat_lt row (rows (A.meaning array.now).holds.shape) }
{
    // `as`, since std has no From of u32 for usize
    ((row / 32) as usize) < array.blocks()
}

// Whether the row has had as many programs as it may.
pub(crate) fn is_full<A: CellArray>(opening: Opening, array: &A, row: u32) -> bool
    ensures { result ≡ is_full opening (A.meaning array.now).holds row }
{
    opening.limit <= array.count(row as usize)
}

// Row cycles are next, and none was taken.
pub(crate) fn rows_for(aim: Aim) -> State
    ensures { result ≡ rows_for aim }
{
    State::Row {
        aim,
        taken: 0,
        row: 0,
    }
}

// What is told of an operation that has ended: `landed` says whether the array did it.
pub(crate) fn told(landed: bool) -> Result<u16, Refusal>
    ensures { result ≡ unless (not landed) Refusal.ArrayFailed done }
{
    if landed {
        Ok(0)
    } else {
        Err(Refusal::ArrayFailed)
    }
}

// A start is refused: nothing has started, the fail bit is set, and read gives the status.
pub(crate) fn refuse_start(control: &mut Control, why: Refusal) -> Result<u16, Refusal>
    ensures answer { result ≡ Err why }
    ensures control { control.new ≡ start_refused control.old }
{
    control.state = State::Status;
    control.fail = true;
    Err(why)
}
