// The defect array: any array, with up to 32 blocks listed that can be neither programmed nor filled.
ghost use Rattle.std.specs.Prelude.{◌≡◌, ℕ, [], take};
ghost use Rattle.words.specs.Kind.{Kind};
ghost use Rattle.arrays.specs.Meaning.{Meaning, MeaningLaws, Performs};
ghost use Rattle.arrays.specs.Defect.{defect, listed, listing, list_after};

use crate::cell_array::CellArray;
use crate::defect_list::DefectList;
use refusals::Refusal;
use words::Word;

#[derive(Drop)]
pub struct DefectArray<A> {
    below: A,
    list: DefectList,
}

impl<A: CellArray> DefectArray<A> {
    // No block is listed yet.
    pub fn new(below: A) -> Self
        ensures below { result.below ≡ below }
        ensures list { take result.list.used result.list.blocks ≡ [] }
        ensures meaning { defect (A.meaning result.below) (take result.list.used result.list.blocks) ≡ defect (A.meaning below) [] }
    {
        DefectArray {
            below,
            list: DefectList::new(),
        }
    }

    // The blocks that are listed, in the order in which they came.
    pub fn defects(&self) -> &[usize]
        ensures { result.now ≡ take self.now.list.used self.now.list.blocks }
    {
        self.list.as_slice()
    }

    fn is_defective(&self, block: usize) -> bool
        ensures { result ≡ listed (take self.now.list.used self.now.list.blocks) block }
    {
        self.list.contains(block)
    }

    // Lists a block. One outside the array is refused; one that is listed already is taken and changes nothing; then a full list refuses.
    pub fn list(&mut self, block: usize) -> Result<u16, Refusal>
        ensures answer { result ≡ listing (A.meaning self.old.below).holds.shape.blocks (take self.old.list.used self.old.list.blocks) block }
        ensures after { take self.new.list.used self.new.list.blocks ≡ list_after (A.meaning self.old.below).holds.shape.blocks (take self.old.list.used self.old.list.blocks) block }
        ensures below { self.new.below ≡ self.old.below }
    {
        if block >= self.below.blocks() {
            return Err(Refusal::Outside);
        }
        if !self.is_defective(block) {
            self.list.try_push(block)?;
        }
        // a number, 0, as every call answers: a rule of the project
        Ok(0)
    }
}

impl<A: CellArray> CellArray for DefectArray<A> {
    type Stored = A::Stored;

    ghost meaning = { λ x. defect (A.CellArray.meaning x.below) (take x.list.used x.list.blocks) };

    ghost rest = { λ x. A.CellArray.rest x.below };

    fn blocks(&self) -> usize {
        self.below.blocks()
    }

    fn columns(&self) -> usize {
        self.below.columns()
    }

    fn code(&self, row: usize, column: usize) -> u16 {
        self.below.code(row, column)
    }

    fn count(&self, row: usize) -> u8 {
        self.below.count(row)
    }

    fn program(&mut self, row: usize, codes: &[u16], closes: bool) -> bool {
        if self.is_defective(row / 32) {
            return false;
        }
        self.below.program(row, codes, closes)
    }

    fn fill(&mut self, block: usize, code: u16) -> bool {
        if self.is_defective(block) {
            return false;
        }
        self.below.fill(block, code)
    }
}
