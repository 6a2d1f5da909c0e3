// A job on the caller's own memory: what its slices hold once the array over them is gone.
ghost use Rattle.std.specs.Prelude.{◌≡◌, map};
ghost use Rattle.words.specs.Kind.{Kind};
ghost use Rattle.arrays.specs.Meaning.{programs, fills};
ghost use Rattle.arrays.specs.Flat.{AskedTwice, Job};

use crate::cell_array::CellArray;
use crate::flat;
use crate::flat::FlatArray;
use words::Word;

// A program of one row, which may close its page.
#[derive(Clone, Copy)]
pub struct PageProgram<'a> {
    pub row: usize,
    pub codes: &'a [u16],
    pub closes: bool,
}

// A fill of one block.
#[derive(Clone, Copy)]
pub struct BlockFill {
    pub block: usize,
    pub code: u16,
}

// Which of the two were done.
#[derive(Clone, Copy, PartialEq, Eq, Debug)]
pub struct Outcome {
    pub programmed: bool,
    pub filled: bool,
}

// Asks a flat array for both; it keeps the memory that was lent to it.
fn ask<W: Word>(array: &mut FlatArray<W>, page: PageProgram, fill: BlockFill) -> Outcome
    ensures words_kept { array.new.words.ghost_name ≡ array.old.words.ghost_name }
    ensures counts_kept { array.new.counts.ghost_name ≡ array.old.counts.ghost_name }
    ensures done { AskedTwice W.kind array.old.columns (map W.code array.old.words.now) array.old.counts.now (programs page.entry.row page.entry.codes.now page.entry.closes) (fills fill.block fill.code) result.programmed result.filled (map W.code array.new.words.now) array.new.counts.now }
{
    let programmed = array.program(page.row, page.codes, page.closes);
    let filled = array.fill(fill.block, fill.code);
    Outcome { programmed, filled }
}

// Erases the memory, lays a flat array over it, programs a row, fills a block, and lets the array go.
pub fn program_then_fill<W: Word>(
    words: &mut [W],
    counts: &mut [u8],
    columns: usize,
    page: PageProgram,
    fill: BlockFill,
) -> Outcome
    ensures { Job W.kind columns (map W.code words.old) counts.old (programs page.entry.row page.entry.codes.now page.entry.closes) (fills fill.block fill.code) result.programmed result.filled (map W.code words.new) counts.new }
{
    flat::erase(words, counts, columns);
    let mut array = FlatArray {
        words,
        counts,
        columns,
    };
    ask(&mut array, page, fill)
}
