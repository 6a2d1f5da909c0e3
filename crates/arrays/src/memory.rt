// What a flat array does to the memory lent to it: functions on slices of stored words and of count bytes.
ghost use Rattle.std.specs.Prelude.{◌≡◌, ℕ, ◌+◌, ◌*◌, ◌<◌, ◌≤◌, min, true, ◌&&◌, map, length, ◌==◌, nat_lt, slice_index, slice_set};
ghost use Rattle.words.specs.Kind.{Kind, all_lawful};
ghost use Rattle.arrays.specs.Meaning.{counted};
ghost use Rattle.arrays.specs.Flat.{flat_blocks, with_run, Joined};

use crate::cell_array::MOST_BLOCKS;
use words::Word;

// The most columns that a flat array takes.
const MOST_COLUMNS: usize = 4096;

// How many blocks the memory has room for.
pub(crate) fn room(columns: usize, words: usize, counts: usize) -> usize
    ensures { result ≡ flat_blocks columns words counts }
{
    if columns == 0 || columns > MOST_COLUMNS {
        return 0;
    }
    (words / (32 * columns)).min(counts / 32).min(MOST_BLOCKS)
}

// Whether a row lies in so many blocks.
// One comparison: a public function for it and for the chip's, of another width, would be no plainer.
pub(crate) fn has_row(blocks: usize, row: usize) -> bool
    ensures { result ≡ nat_lt row (32 * blocks) }
{
    row / 32 < blocks
}

// The code of the word at a place.
pub(crate) fn code_at<W: Word>(words: &[W], at: usize) -> u16
    requires { at < length words.now }
    ensures { result ≡ slice_index (map W.code words.now) at }
{
    words[at].to_code()
}

// Whether every code is lawful.
fn all_lawful<W: Word>(codes: &[u16]) -> bool
    ensures { result ≡ all_lawful W.kind codes.now }
{
    codes.iter().all(|code| W::from_code(*code).is_ok())
}

// Whether the codes are a page: one for each column, and all lawful.
pub(crate) fn is_page<W: Word>(codes: &[u16], columns: usize) -> bool
    ensures { result ≡ (length codes.now == columns && all_lawful W.kind codes.now) }
{
    codes.len() == columns && all_lawful::<W>(codes)
}

// The word with a lawful code joined to it.
fn joined<W: Word>(word: W, c: u16) -> W
    requires { W.kind.lawful c ≡ true }
    ensures { W.code result ≡ W.kind.join (W.code word) c }
{
    W::from_code(c).map_or(word, |other| word.join(other))
}

// Joins each code to the words from a place on.
pub(crate) fn join_row<W: Word>(words: &mut [W], at: usize, codes: &[u16])
    requires fits { at + length codes.now ≤ length words.old }
    requires lawful { all_lawful W.kind codes.now ≡ true }
    ensures { Joined W.kind (map W.code words.old) (map W.code words.new) at codes.now (length codes.now) }
{
    // over the codes alone: with `words[at..].iter_mut().zip(codes)`, here or in a function of its own, the goal `returns` stays open, since of
    // the words after that loop a proof knows how many there are and no more
    for (i, code) in codes.iter().enumerate() {
        words[at + i] = joined(words[at + i], *code);
    }
}

// Counts one more program of a row, up to 15; one that closes the page counts as 15.
pub(crate) fn count_program(counts: &mut [u8], row: usize, closes: bool)
    requires { row < length counts.old }
    ensures { counts.new ≡ slice_set counts.old row (counted closes (min 15 (slice_index counts.old row))) }
{
    let n = counts[row];
    counts[row] = if closes || n >= 15 { 15 } else { n + 1 };
}

// Puts a value at each of n places.
// The places, the number and the value come one by one: a struct of them would be taken apart at once.
fn put<T: Copy>(places: &mut [T], at: usize, n: usize, value: T)
    requires { at + n ≤ length places.old }
    ensures { places.new ≡ with_run places.old at n value }
{
    // not `fill`, which asks that a clone succeeds: a bound by `Copy` does not say so
    for place in &mut places[at..at + n] {
        *place = value;
    }
}

// Puts a value at every place of the first n blocks: their words, or with one place a row their counts.
pub(crate) fn put_first_blocks<T: Copy>(places: &mut [T], n: usize, width: usize, value: T)
    requires few { n ≤ 4096 }
    requires narrow { width ≤ 4096 }
    requires fits { n * (32 * width) ≤ length places.old }
    ensures { places.new ≡ with_run places.old 0 (n * (32 * width)) value }
{
    put(places, 0, n * (32 * width), value);
}

// Puts a value at every place of one block: its words, or with one place a row its counts.
pub(crate) fn put_block<T: Copy>(places: &mut [T], block: usize, width: usize, value: T)
    requires few { block < 4096 }
    requires fits { block * 32 * width + 32 * width ≤ length places.old }
    ensures { places.new ≡ with_run places.old (block * 32 * width) (32 * width) value }
{
    put(places, block * 32 * width, 32 * width, value);
}
