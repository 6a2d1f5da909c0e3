// An array that is lent is an array.
ghost use Rattle.std.specs.Prelude.{◌≡◌};
ghost use Rattle.arrays.specs.Meaning.{Meaning, Performs};
ghost use Rattle.arrays.specs.Rest.{behind};

use crate::cell_array::CellArray;
use words::Word;

impl<'b, A: CellArray> CellArray for &'b mut A {
    type Stored = A::Stored;

    ghost meaning = { λ x. A.CellArray.meaning x.now };

    ghost rest = { λ x. behind x.ghost_name (A.CellArray.rest x.now) };

    fn blocks(&self) -> usize {
        (**self).blocks()
    }

    fn columns(&self) -> usize {
        (**self).columns()
    }

    fn code(&self, row: usize, column: usize) -> u16 {
        (**self).code(row, column)
    }

    fn count(&self, row: usize) -> u8 {
        (**self).count(row)
    }

    fn program(&mut self, row: usize, codes: &[u16], closes: bool) -> bool {
        (**self).program(row, codes, closes)
    }

    fn fill(&mut self, block: usize, code: u16) -> bool {
        (**self).fill(block, code)
    }
}
