// The cells of two arrays, place by place.
ghost use Rattle.std.specs.Prelude.{◌≡◌, ℕ, ◌+◌, ◌-◌, ◌^◌, ◌≤◌, ◌<◌, Decides, IfNone, IfSome, MatchOption, ◌==◌};
ghost use Rattle.arrays.specs.Meaning.{Shape};
ghost use Rattle.rules.specs.Equality.{SameCells};
ghost use Rattle.compare.specs.Differences.{DiffersInRow, FirstApart, FirstDifference, SameRow, count_apart, count_rows, count_block, same_shape};

use arrays::CellArray;
use std::ops::Range;

// A place at which two arrays differ, and the two codes.
#[derive(Clone, Copy, PartialEq, Eq, Debug)]
pub struct Difference {
    pub row: usize,
    pub column: usize,
    pub code: u16,
    pub other_code: u16,
}

// Two arrays side by side.
#[derive(Clone, Copy)]
pub struct Pair<'a, A, B> {
    pub one: &'a A,
    pub other: &'a B,
}

impl<'a, A: CellArray, B: CellArray> Pair<'a, A, B> {
    // Whether the arrays have one code at the place. They may be of different makes, so no derive compares them.
    fn is_same(&self, row: usize, column: usize) -> bool
        ensures { result ≡ ((A.CellArray.meaning self.now.one.now).holds.code row column == (B.CellArray.meaning self.now.other.now).holds.code row column) }
    {
        self.one.code(row, column) == self.other.code(row, column)
    }

    // The first column of the row, of so many, at which the arrays differ.
    pub fn first_in_row(&self, row: usize, columns: usize) -> Option<usize>
        ensures { FirstApart ((A.CellArray.meaning self.now.one.now).holds.code row) ((B.CellArray.meaning self.now.other.now).holds.code row) columns result }
    {
        for column in 0..columns {
            if !self.is_same(row, column) {
                return Some(column);
            }
        }
        None
    }

    // The first place of the row at which the arrays differ, within so many columns.
    fn difference_in_row(&self, row: usize, columns: usize) -> Option<Difference>
        ensures none { IfNone result (SameRow (A.CellArray.meaning self.now.one.now).holds (B.CellArray.meaning self.now.other.now).holds columns row) }
        ensures some { IfSome result (λ d. DiffersInRow (A.CellArray.meaning self.now.one.now).holds (B.CellArray.meaning self.now.other.now).holds row columns d) }
    {
        let column = self.first_in_row(row, columns)?;
        Some(Difference {
            row,
            column,
            code: self.one.code(row, column),
            other_code: self.other.code(row, column),
        })
    }

    // The first place of the first rows, row after row, at which the arrays differ within so many columns.
    fn difference_in_rows(&self, rows: usize, columns: usize) -> Option<Difference>
        ensures none { IfNone result ((row : ℕ) → row < rows → SameRow (A.CellArray.meaning self.now.one.now).holds (B.CellArray.meaning self.now.other.now).holds columns row) }
        ensures some { IfSome result (λ d. (d.row < rows) × DiffersInRow (A.CellArray.meaning self.now.one.now).holds (B.CellArray.meaning self.now.other.now).holds d.row columns d) }
        ensures before { IfSome result (λ d. (row : ℕ) → row < d.row → SameRow (A.CellArray.meaning self.now.one.now).holds (B.CellArray.meaning self.now.other.now).holds columns row) }
    {
        (0..rows).find_map(|row| self.difference_in_row(row, columns))
    }

    // The first place, row after row, at which the arrays differ within so many blocks and columns.
    pub fn first_difference(&self, blocks: u32, columns: usize) -> Option<Difference>
        ensures { FirstDifference record { blocks = blocks; columns = columns } (A.CellArray.meaning self.now.one.now).holds (B.CellArray.meaning self.now.other.now).holds result }
    {
        let rows = 32 * blocks as usize;
        self.difference_in_rows(rows, columns)
    }

    // How many words of the row, of so many, differ.
    fn apart_in_row(&self, row: usize, columns: u16) -> u32
        ensures count { result ≡ count_apart ((A.CellArray.meaning self.now.one.now).holds.code row) ((B.CellArray.meaning self.now.other.now).holds.code row) columns }
        ensures bound { result ≤ columns }
    {
        (0..usize::from(columns))
            .map(|column| u32::from(!self.is_same(row, column)))
            .sum()
    }

    // How many words of some rows differ, of so many a row.
    fn apart_in_rows(&self, rows: Range<usize>, columns: u16) -> u32
        requires ordered { rows.start ≤ rows.end }
        requires few { rows.end ≤ rows.start + 32 }
        ensures { result ≡ count_rows (A.CellArray.meaning self.now.one.now).holds (B.CellArray.meaning self.now.other.now).holds columns rows.start (rows.end - rows.start) }
    {
        rows.map(|row| self.apart_in_row(row, columns)).sum()
    }

    // How many words of the block differ, of so many a row.
    pub fn apart_in_block(&self, block: u32, columns: u16) -> u32
        ensures { result ≡ count_block (A.CellArray.meaning self.now.one.now).holds (B.CellArray.meaning self.now.other.now).holds columns block }
    {
        let first = 32 * block as usize;
        self.apart_in_rows(first..first + 32, columns)
    }

    // Whether the arrays are equal in all cells within so many blocks and columns. These are two parameters, as the columns are of another
    // width elsewhere.
    pub fn same_cells(&self, blocks: u32, columns: usize) -> bool
        ensures { Decides result (SameCells record { blocks = blocks; columns = columns } (A.CellArray.meaning self.now.one.now).holds (B.CellArray.meaning self.now.other.now).holds) }
    {
        self.first_difference(blocks, columns).is_none()
    }

    // Whether the arrays have as many blocks and columns.
    pub fn same_shape(&self) -> bool
        ensures { result ≡ same_shape (A.CellArray.meaning self.now.one.now).holds.shape (B.CellArray.meaning self.now.other.now).holds.shape }
    {
        self.one.blocks() == self.other.blocks() && self.one.columns() == self.other.columns()
    }
}

// The number of blocks, where it is below 2^32.
pub fn block_count<A: CellArray>(array: &A) -> Option<u32>
    ensures { MatchOption result (2 ^ 32 ≤ (A.meaning array.now).holds.shape.blocks) (λ n. n ≡ (A.meaning array.now).holds.shape.blocks) }
{
    u32::try_from(array.blocks()).ok()
}
