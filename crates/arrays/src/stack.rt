// The stack: two arrays of any make as one, the second's blocks numbered after the first's.
ghost use Rattle.std.specs.Prelude.{◌≡◌, ℕ, ◌+◌, ◌*◌, ◌<◌, ◌≤◌};
ghost use Rattle.words.specs.Kind.{Kind};
ghost use Rattle.arrays.specs.Meaning.{Meaning, MeaningLaws, Performs};
ghost use Rattle.arrays.specs.Rest.{both};
ghost use Rattle.arrays.specs.Stack.{stack, stack_blocks, Lies};

use crate::cell_array::{CellArray, MOST_BLOCKS};
use words::Word;

#[derive(Drop)]
pub struct Stack<A, B> {
    first: A,
    second: B,
}

// Where a block of the stack lies: in the first array, in the second, or in neither.
enum Place {
    First,
    // with the number of the second's first block
    Second(usize),
    Outside,
}

impl<A: CellArray, B: CellArray<Stored = A::Stored>> Stack<A, B> {
    pub fn new(first: A, second: B) -> Self
        ensures first { result.first ≡ first }
        ensures second { result.second ≡ second }
        ensures meaning { stack A.Stored.Word.kind (A.CellArray.meaning result.first) (B.CellArray.meaning result.second) ≡ stack A.Stored.Word.kind (A.CellArray.meaning first) (B.CellArray.meaning second) }
    {
        Stack { first, second }
    }

    fn place(&self, block: usize) -> Place
        ensures { Lies (A.CellArray.meaning self.now.first).holds.shape (B.CellArray.meaning self.now.second).holds.shape block result }
    {
        let split = self.first.blocks();
        if block >= self.blocks() {
            Place::Outside
        } else if block < split {
            Place::First
        } else {
            Place::Second(split)
        }
    }
}

impl<A: CellArray, B: CellArray<Stored = A::Stored>> CellArray for Stack<A, B> {
    type Stored = A::Stored;

    ghost meaning = { λ x. stack A.Stored.Word.kind (A.CellArray.meaning x.first) (B.CellArray.meaning x.second) };

    ghost rest = { λ x. both (A.CellArray.rest x.first) (B.CellArray.rest x.second) };

    fn blocks(&self) -> usize {
        let n = self.first.blocks();
        let m = self.second.blocks();
        if A::columns(&self.first) == B::columns(&self.second) {
            n.saturating_add(m).min(MOST_BLOCKS)
        } else {
            0
        }
    }

    fn columns(&self) -> usize {
        self.first.columns()
    }

    fn code(&self, row: usize, column: usize) -> u16 {
        match self.place(row / 32) {
            Place::First => self.first.code(row, column),
            Place::Second(split) => self.second.code(row - 32 * split, column),
            Place::Outside => A::Stored::erased().to_code(),
        }
    }

    fn count(&self, row: usize) -> u8 {
        match self.place(row / 32) {
            Place::First => self.first.count(row),
            Place::Second(split) => self.second.count(row - 32 * split),
            Place::Outside => 0,
        }
    }

    fn program(&mut self, row: usize, codes: &[u16], closes: bool) -> bool {
        match self.place(row / 32) {
            Place::First => self.first.program(row, codes, closes),
            Place::Second(split) => self.second.program(row - 32 * split, codes, closes),
            Place::Outside => false,
        }
    }

    fn fill(&mut self, block: usize, code: u16) -> bool {
        match self.place(block) {
            Place::First => self.first.fill(block, code),
            Place::Second(split) => self.second.fill(block - split, code),
            Place::Outside => false,
        }
    }
}
