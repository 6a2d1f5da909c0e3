// The page register.
ghost use Rattle.std.specs.Prelude.{◌≡◌, ℕ, ◌<◌, ◌≤◌, length, map, take, slice_index_or, slice_set};
ghost use Rattle.words.specs.Kind.{Kind};
ghost use Rattle.rules.specs.Parts.{columns};
ghost use Rattle.rules.specs.Controls.{places, blank, page_of};

use crate::part::Part;
use arrays::CellArray;
use words::Word;

// The places of the register: the columns of the widest part.
const PLACES: usize = 528;

// A code at each of its places; a part uses as many as it has columns. A fixed array in a plain
// struct is a rule of the project.
#[derive(Drop)]
pub struct PageRegister {
    codes: [u16; PLACES],
}

// The torn form of each code. By itself, since its proof is written out: written in the method, it would
// meet a wrong method before any fact does.
fn torn_codes<W: Word>(mut codes: [u16; PLACES]) -> [u16; PLACES]
    ensures { result ≡ map W.kind.torn codes }
{
    for code in &mut codes {
        *code = W::torn_code(*code);
    }
    codes
}

impl PageRegister {
    // One code at every place. The rules keep `blank` shut, so the proof is told to open it.
    #[tactic(auto, unfolding(crate::specs::Controls::blank))]
    pub fn erased(code: u16) -> PageRegister
        ensures { result.codes ≡ blank code }
    {
        PageRegister {
            codes: [code; PLACES],
        }
    }

    pub fn clear(&mut self, code: u16)
        ensures { self.new.codes ≡ blank code }
    {
        *self = PageRegister::erased(code);
    }

    // How many places there are.
    pub fn places(&self) -> u16
        ensures value { result ≡ places }
        ensures length { length self.now.codes ≡ result }
    {
        // `as`, since the proof shows that nothing is lost
        self.codes.len() as u16
    }

    // The code at a column, or `erased` past the last place.
    pub fn get(&self, column: u16, erased: u16) -> u16
        ensures { result ≡ slice_index_or self.now.codes column erased }
    {
        self.codes
            .get(usize::from(column))
            .copied()
            .unwrap_or(erased)
    }

    // Puts a code at a column; past the last place nothing changes.
    pub fn put(&mut self, column: u16, code: u16)
        ensures { self.new.codes ≡ slice_set self.old.codes column code }
    {
        // by index: after a slice's `get_mut` a proof knows the length and no element
        let column = usize::from(column);
        if column < PLACES {
            self.codes[column] = code;
        }
    }

    // The codes at the part's columns.
    pub fn front(&self, part: Part) -> &[u16]
        ensures value { result.now ≡ take (columns part) self.now.codes }
        ensures length { length result.now ≡ columns part }
    {
        &self.codes[..usize::from(part.columns())]
    }

    // The register with the torn form of each code.
    pub fn torn<W: Word>(&self) -> PageRegister
        ensures { result.codes ≡ map W.kind.torn self.now.codes }
    {
        PageRegister {
            codes: torn_codes::<W>(self.codes),
        }
    }

    // A page of an array: the row's codes at the part's columns, and the erased code at the places
    // beyond; one pass from the first place to the last.
    pub fn fetch<A: CellArray>(&mut self, array: &A, part: Part, row: u32)
        ensures { self.new.codes ≡ page_of part A.Stored.Word.kind.erased ((A.meaning array.now).holds.code row) }
    {
        let columns = usize::from(part.columns());
        let erased = A::Stored::erased().to_code();
        let codes = &mut self.codes;
        for (column, code) in codes.iter_mut().enumerate() {
            *code = if column < columns {
                // `as`, since std has no From of u32 for usize
                array.code(row as usize, column)
            } else {
                erased
            };
        }
    }
}
