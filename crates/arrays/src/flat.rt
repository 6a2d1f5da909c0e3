// The flat array: words and counts in the caller's own memory, row after row.
ghost use Rattle.std.specs.Prelude.{◌≡◌, ℕ, ◌+◌, ◌*◌, ◌<◌, ◌≤◌, min, Bool, true, false, map, length};
ghost use Rattle.words.specs.Kind.{Kind, KindLaws};
ghost use Rattle.arrays.specs.Meaning.{Meaning, MeaningLaws, Performs, new_contents, always_willing};
ghost use Rattle.arrays.specs.Flat.{flat, flat_contents, flat_places, flat_rows, flat_shape, Put};
ghost use Rattle.arrays.specs.Rest.{lent, flat_lent};

use crate::cell_array::CellArray;
use crate::memory;
use words::Word;

// A literal lies over the memory as it is; `FlatArray::new` erases it first.
#[derive(Drop)]
pub struct FlatArray<'a, W> {
    pub words: &'a mut [W],
    // a count byte for each row, in the caller's own memory: a rule of the project
    pub counts: &'a mut [u8],
    pub columns: usize,
}

// Erases every word of the shape that the memory has room for, and zeroes the counts of its rows. The three come one by one, since a
// literal of them is laid over the memory only when it is erased.
pub fn erase<W: Word>(words: &mut [W], counts: &mut [u8], columns: usize)
    ensures erases { Put (map W.code words.old) (map W.code words.new) 0 (flat_places columns (map W.code words.old) counts.old) W.kind.erased }
    ensures zeroes { Put counts.old counts.new 0 (flat_rows columns (map W.code words.old) counts.old) 0 }
    ensures new { flat_contents W.kind columns (map W.code words.new) counts.new ≡ new_contents W.kind (flat_shape columns (map W.code words.old) counts.old) }
{
    let n = memory::room(columns, words.len(), counts.len());
    // cut so that the product cannot overflow; where the columns are more there are no blocks
    let width = columns.min(4096);
    memory::put_first_blocks(words, n, width, W::erased());
    memory::put_first_blocks(counts, n, 1, 0);
}

impl<'a, W: Word> FlatArray<'a, W> {
    // A new array over the memory: all that lies in its shape is erased, all else stays. The clauses speak of `map W.code words`, since a
    // slice has no model, and the definitions are over codes.
    pub fn new(words: &'a mut [W], counts: &'a mut [u8], columns: usize) -> Self
        ensures columns { result.columns ≡ columns }
        ensures erases { Put (map W.code words.old) (map W.code result.words.now) 0 (flat_places columns (map W.code words.old) counts.old) W.kind.erased }
        ensures zeroes { Put counts.old result.counts.now 0 (flat_rows columns (map W.code words.old) counts.old) 0 }
        ensures new { flat W.kind result.columns (map W.code result.words.now) result.counts.now ≡ always_willing (new_contents W.kind (flat_shape columns (map W.code words.old) counts.old)) }
    {
        erase(words, counts, columns);
        FlatArray {
            words,
            counts,
            columns,
        }
    }
}

impl<'a, W: Word> CellArray for FlatArray<'a, W> {
    type Stored = W;

    ghost meaning = { λ x. flat W.Word.kind x.columns (map W.Word.code x.words.now) x.counts.now };

    ghost rest = { λ x. lent (flat_lent x.words.ghost_name x.counts.ghost_name x.columns (map W.Word.code x.words.now) x.counts.now) };

    fn blocks(&self) -> usize {
        memory::room(self.columns, self.words.len(), self.counts.len())
    }

    fn columns(&self) -> usize {
        self.columns
    }

    fn code(&self, row: usize, column: usize) -> u16 {
        if !memory::has_row(self.blocks(), row) || column >= self.columns {
            return W::erased().to_code();
        }
        memory::code_at(self.words, row * self.columns + column)
    }

    fn count(&self, row: usize) -> u8 {
        if memory::has_row(self.blocks(), row) {
            self.counts[row].min(15)
        } else {
            0
        }
    }

    fn program(&mut self, row: usize, codes: &[u16], closes: bool) -> bool {
        let columns = self.columns;
        if !memory::has_row((*self).blocks(), row) || !memory::is_page::<W>(codes, columns) {
            return false;
        }
        memory::join_row(self.words, row * columns, codes);
        memory::count_program(self.counts, row, closes);
        true
    }

    fn fill(&mut self, block: usize, code: u16) -> bool {
        if block >= (*self).blocks() {
            return false;
        }
        let Ok(word) = W::from_code(code) else {
            return false;
        };
        memory::put_block(self.words, block, self.columns, word);
        memory::put_block(self.counts, block, 1, 0);
        true
    }
}
