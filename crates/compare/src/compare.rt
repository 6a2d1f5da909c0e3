// Two lists of calls on two chips, compared by what the chips answer and by what they hold then.
ghost use Rattle.std.specs.Prelude.{◌≡◌, ℕ, IfOk, IfErr, Decides, OnErr};
ghost use Rattle.chip.specs.Calls.{seen};
ghost use Rattle.compare.specs.Compared.{EqualCells, Compared};
ghost use Rattle.compare.specs.Errors.{CallsRefused};

use crate::answers::same_answers;
use crate::cells::{Pair, block_count};
use crate::error::CompareError;
use crate::playing::play_all;
use arrays::CellArray;
use chip::Chip;
use records::call::Call;
use refusals::Refusal;
use std::alloc::Global;

// The answers of both sides, and the two verdicts.
#[derive(Drop)]
pub struct Comparison {
    pub answers: Vec<Result<u16, Refusal>>,
    pub other_answers: Vec<Result<u16, Refusal>>,
    pub answers_equal: bool,
    pub cells_equal: bool,
}

// Whether two arrays, the first of so many blocks, are equal in all cells: arrays of different shapes are not. Of two makes, so no derive
// compares them.
fn same_arrays<A: CellArray, B: CellArray>(one: &A, other: &B, blocks: u32) -> bool
    requires { blocks ≡ (A.CellArray.meaning one.now).holds.shape.blocks }
    ensures { Decides result (EqualCells (A.CellArray.meaning one.now).holds (B.CellArray.meaning other.now).holds) }
{
    let pair = Pair { one, other };
    pair.same_shape() && pair.same_cells(blocks, one.columns())
}

// Plays each list of calls on its chip, and answers both verdicts. Room for all answers is made first, so that an error leaves both chips as
// they were. Each chip stands beside its calls, and not in one struct with them, so that the contract can speak of `one.old` and `one.new`.
pub fn compare_calls<A: CellArray, B: CellArray<Stored = A::Stored>>(
    heap: Global,
    one: &mut Chip<A>,
    calls: &[Call],
    other: &mut Chip<B>,
    other_calls: &[Call],
) -> Result<Comparison, CompareError>
    ensures compared { IfOk result (λ v. Compared A.Stored.Word.kind one.old.opening other.old.opening (seen A.CellArray.meaning one.old) calls.now v.answers.items (seen A.CellArray.meaning one.new) (seen B.CellArray.meaning other.old) other_calls.now v.other_answers.items (seen B.CellArray.meaning other.new) v.answers_equal v.cells_equal) }
    ensures untouched { OnErr result ((one.new ≡ one.old) × (other.new ≡ other.old)) }
    ensures error { IfErr result (λ e. CallsRefused (A.CellArray.meaning one.old.array).holds.shape.blocks e) }
    ensures rest { A.CellArray.rest one.new.array ≡ A.CellArray.rest one.old.array }
    ensures other_rest { B.CellArray.rest other.new.array ≡ B.CellArray.rest other.old.array }
    ensures opening { one.new.opening ≡ one.old.opening }
    ensures other_opening { other.new.opening ≡ other.old.opening }
{
    let blocks = block_count((*one).array()).ok_or(CompareError::TooLarge)?;
    let room = Vec::with_capacity(heap, calls.len())?;
    let other_room = Vec::with_capacity(heap, other_calls.len())?;
    let answers = play_all(one, calls, room);
    let other_answers = play_all(other, other_calls, other_room);
    let answers_equal = same_answers(&answers, &other_answers);
    let cells_equal = same_arrays((*one).array(), (*other).array(), blocks);
    Ok(Comparison {
        answers,
        other_answers,
        answers_equal,
        cells_equal,
    })
}
