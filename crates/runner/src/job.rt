// A run on the caller's own memory: what its slices hold once the chip and its array are gone.
ghost use Rattle.std.specs.Prelude.{◌≡◌, map};
ghost use Rattle.words.specs.Kind.{Kind};
ghost use Rattle.runner.specs.Memory.{RanOver, RanFlat, RanNew};

use crate::running::run;
use arrays::{CellArray, FlatArray, flat};
use chip::Chip;
use rules::control::Opening;
use words::Word;

// Opens a chip over a lent array, and runs the trace. Its parameters come one by one, as those of `run_on_memory`.
fn run_lent<A: CellArray>(
    opening: Opening,
    array: &mut A,
    trace: &[u8],
    results: &mut [u8],
) -> (usize, usize)
    ensures ran { RanOver A.Stored.Word.kind opening (A.meaning array.old) trace.now results.old result.0 result.1 results.new (A.meaning array.new) }
    ensures rest { A.rest array.new ≡ A.rest array.old }
{
    let mut chip = Chip::open(opening, array);
    run(&mut chip, trace, results)
}

// The same over a lent flat array. `run_lent` says in the words of any array that the memory lent to it stays; this says it of the two slices,
// by which `run_on_memory` knows them again once the array is gone.
fn run_flat<W: Word>(
    opening: Opening,
    array: &mut FlatArray<W>,
    trace: &[u8],
    results: &mut [u8],
) -> (usize, usize)
    ensures words_kept { array.new.words.ghost_name ≡ array.old.words.ghost_name }
    ensures counts_kept { array.new.counts.ghost_name ≡ array.old.counts.ghost_name }
    ensures ran { RanFlat W.kind opening array.old.columns (map W.code array.old.words.now) array.old.counts.now trace.now results.old result.0 result.1 results.new (map W.code array.new.words.now) array.new.counts.now }
{
    run_lent(opening, array, trace, results)
}

// Erases the memory for the columns of the part, lays a flat array over it, opens a chip on that, runs the trace, and lets both go.
// The five parameters come one by one, since the contract says what `words.new`, `counts.new` and `results.new` are.
pub fn run_on_memory<W: Word>(
    opening: Opening,
    words: &mut [W],
    counts: &mut [u8],
    trace: &[u8],
    results: &mut [u8],
) -> (usize, usize)
    ensures { RanNew W.kind opening (map W.code words.old) counts.old trace.now results.old result.0 result.1 results.new (map W.code words.new) counts.new }
{
    let columns = usize::from(opening.part.columns());
    flat::erase(words, counts, columns);
    let mut array = FlatArray {
        words,
        counts,
        columns,
    };
    run_flat(opening, &mut array, trace, results)
}
