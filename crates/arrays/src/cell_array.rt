// An array of cells: blocks of 32 rows, a code at each row and column, a count of programs for each row.
ghost use Rattle.std.specs.Prelude.{◌≡◌};
ghost use Rattle.words.specs.Kind.{Kind};
ghost use Rattle.arrays.specs.Meaning.{Meaning, MeaningLaws, Performs, programs, fills};
ghost use Rattle.arrays.specs.Rest.{Rest};

use words::Word;

// The most blocks that an array has.
pub(crate) const MOST_BLOCKS: usize = 4096;

pub trait CellArray {
    // the stored word, which has the array's word kind
    type Stored: Word;

    // what the array means
    ghost meaning: { Self → Meaning };

    // what the array has beside its meaning, and no call changes
    ghost rest: { Self → Rest };

    // The number of blocks. With it come the laws of every array, which a proof cites from this call.
    fn blocks(&self) -> usize
        ensures shape { result ≡ (meaning self.now).holds.shape.blocks }
        ensures laws { MeaningLaws Self.Stored.Word.kind (meaning self.now) };

    fn columns(&self) -> usize
        ensures { result ≡ (meaning self.now).holds.shape.columns };

    // The code at a place; outside the shape the erased code.
    fn code(&self, row: usize, column: usize) -> u16
        ensures { result ≡ (meaning self.now).holds.code row column };

    // How many programs the row has had, up to 15; outside the shape 0.
    fn count(&self, row: usize) -> u8
        ensures { result ≡ (meaning self.now).holds.count row };

    // Joins one code a column to the row, and counts the program; whether it was done. What is willing after a success is open.
    // The three come one by one: a stack hands on another row with the same codes, and each array takes them apart at once, so a struct would
    // be no plainer. Whether it was done is a plain yes or no.
    fn program(&mut self, row: usize, codes: &[u16], closes: bool) -> bool
        ensures done { Performs Self.Stored.Word.kind (programs row codes.now closes) (meaning self.old) result (meaning self.new) }
        ensures rest { rest self.new ≡ rest self.old };

    // Puts one code at every place of the block, and zeroes its counts; whether it was done. What is willing after a success is open.
    fn fill(&mut self, block: usize, code: u16) -> bool
        ensures done { Performs Self.Stored.Word.kind (fills block code) (meaning self.old) result (meaning self.new) }
        ensures rest { rest self.new ≡ rest self.old };
}
