// The codes of one page.
ghost use Rattle.std.specs.Prelude.{◌≡◌, ℕ, ◌<◌, slice_index};
ghost use Rattle.overlap.specs.Pages.{part_code, torn_code};
ghost use Rattle.words.specs.Kind.{Kind};

use std::array;
use std::ops::Range;
use words::Word;

pub const COLUMNS: usize = 528;

// The code that such a page has in a column.
fn code_at(columns: &Range<usize>, code: u16, erased: u16, column: usize) -> u16
    ensures { result ≡ part_code columns.now.start columns.now.end code erased column }
{
    if columns.contains(&column) {
        code
    } else {
        erased
    }
}

// A page with one code in some columns, and erased elsewhere.
pub fn part(columns: Range<usize>, code: u16, erased: u16) -> [u16; COLUMNS]
    ensures { (k : ℕ) → k < 528 → slice_index result k ≡ part_code columns.start columns.end code erased k }
{
    array::from_fn(|column| code_at(&columns, code, erased, column))
}

// What an interrupted program writes of a code; an unlawful code stays.
fn torn_code<W: Word>(c: u16) -> u16
    ensures { result ≡ torn_code W.kind c }
{
    W::from_code(c).map_or(c, |word| word.torn().to_code())
}

// What an interrupted program writes of a page.
pub fn torn<W: Word>(page: [u16; COLUMNS]) -> [u16; COLUMNS]
    ensures { (k : ℕ) → k < 528 → slice_index result k ≡ torn_code W.kind (slice_index page k) }
{
    // a closure, since the name of a generic function is not taken as one here
    page.map(|code| torn_code::<W>(code))
}
