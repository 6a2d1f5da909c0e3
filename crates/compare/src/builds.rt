// Two builds of an image: two traces, each on a new chip over the caller's memory.
ghost use Rattle.std.specs.Prelude.{◌≡◌, ℕ, map, length, IfOk, IfErr};
ghost use Rattle.words.specs.Kind.{Kind};
ghost use Rattle.arrays.specs.Flat.{flat, flat_shape, Beyond};
ghost use Rattle.rules.specs.Parts.{columns};
ghost use Rattle.chip.specs.Calls.{seen};
ghost use Rattle.compare.specs.Errors.{TracesRefused};
ghost use Rattle.compare.specs.Built.{Built, new_chip};

use crate::compare::Comparison;
use crate::error::CompareError;
use crate::traces::compare_traces;
use arrays::{CellArray, FlatArray};
use chip::Chip;
use rules::control::Opening;
use std::alloc::Global;
use words::Word;

// A build of an image: a trace, and the memory that it is played over.
#[derive(Drop)]
pub struct Build<'a, 't, W> {
    pub words: &'a mut [W],
    pub counts: &'a mut [u8],
    pub trace: &'t [u8],
}

// What came of two builds: the comparison, and both chips as they are then.
#[derive(Drop)]
pub struct Builds<'a, W> {
    pub comparison: Comparison,
    pub one: Chip<FlatArray<'a, W>>,
    pub other: Chip<FlatArray<'a, W>>,
}

impl<'a, 't, W: Word> Build<'a, 't, W> {
    // Words and counts that are lent for different times fit too: a call shortens the longer loan, which a literal of the struct does not.
    pub fn new(words: &'a mut [W], counts: &'a mut [u8], trace: &'t [u8]) -> Self
        ensures words { result.words.now ≡ words.old }
        ensures counts { result.counts.now ≡ counts.old }
        ensures trace { result.trace.now ≡ trace.now }
    {
        Build {
            words,
            counts,
            trace,
        }
    }

    // A new chip over the memory, for the columns of the part.
    fn open_new(self, opening: Opening) -> Chip<FlatArray<'a, W>>
        ensures opening { result.opening ≡ opening }
        ensures columns { result.array.columns ≡ columns opening.part }
        ensures beyond { Beyond (columns opening.part) (map W.code self.entry.words.now) self.entry.counts.now (map W.code result.array.words.now) result.array.counts.now }
        ensures new { (seen (λ x. flat W.kind x.columns (map W.code x.words.now) x.counts.now) result) ≡ new_chip W.kind (flat_shape (columns opening.part) (map W.code self.entry.words.now) self.entry.counts.now) }
    {
        let columns = usize::from(opening.part.columns());
        Chip::open(opening, FlatArray::new(self.words, self.counts, columns))
    }
}

// Opens two chips alike over the memory of the builds, reads both traces, plays the calls of each on its chip, and answers both verdicts and both
// chips. What the memory holds beyond the shape stays. An error leaves the memory erased, and what else it holds is not promised.
pub fn compare_builds<'a, 't, W: Word>(
    heap: Global,
    opening: Opening,
    one: Build<'a, 't, W>,
    other: Build<'a, 't, W>,
) -> Result<Builds<'a, W>, CompareError>
    ensures built { IfOk result (λ v. Built W.kind opening (flat_shape (columns opening.part) (map W.code one.entry.words.now) one.entry.counts.now) (flat_shape (columns opening.part) (map W.code other.entry.words.now) other.entry.counts.now) one.entry.trace.now v.comparison.answers.items (seen (λ x. flat W.kind x.columns (map W.code x.words.now) x.counts.now) v.one) other.entry.trace.now v.comparison.other_answers.items (seen (λ x. flat W.kind x.columns (map W.code x.words.now) x.counts.now) v.other) v.comparison.answers_equal v.comparison.cells_equal) }
    ensures opening { IfOk result (λ v. (v.one.opening ≡ opening) × (v.other.opening ≡ opening)) }
    ensures beyond { IfOk result (λ v. Beyond (columns opening.part) (map W.code one.entry.words.now) one.entry.counts.now (map W.code v.one.array.words.now) v.one.array.counts.now) }
    ensures other_beyond { IfOk result (λ v. Beyond (columns opening.part) (map W.code other.entry.words.now) other.entry.counts.now (map W.code v.other.array.words.now) v.other.array.counts.now) }
    ensures error { IfErr result (λ e. TracesRefused (flat_shape (columns opening.part) (map W.code one.entry.words.now) one.entry.counts.now).blocks one.entry.trace.now other.entry.trace.now e) }
{
    let trace = one.trace;
    let other_trace = other.trace;
    let mut one = one.open_new(opening);
    let mut other = other.open_new(opening);
    let comparison = compare_traces(heap, &mut one, trace, &mut other, other_trace)?;
    Ok(Builds {
        comparison,
        one,
        other,
    })
}
