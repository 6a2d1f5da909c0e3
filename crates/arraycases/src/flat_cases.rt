// The shape of a flat array, over words and counts that are one short, exact or to spare.
use arrays::{CellArray, FlatArray};
use std::io;

// What memory holds before an array is made over it.
const OLD: u8 = 0x5A;

#[derive(Clone, Copy)]
struct Case {
    columns: usize,
    words: usize,
    counts: usize,
    // the number of blocks, worked out by hand
    blocks: usize,
}

#[derive(Clone, Copy)]
struct Found {
    blocks: usize,
    // a code and a count inside, one row past the end, and one column past the end
    last: u16,
    past_row: u16,
    past_column: u16,
    // whether the last row and the one after it could be programmed, and the last block and the one after it filled
    programs_last: bool,
    programs_past: bool,
    fills_last: bool,
    fills_past: bool,
}

fn probe(words: &mut [u8], counts: &mut [u8], columns: usize, page: &[u16]) -> Found {
    let mut array = FlatArray::new(words, counts, columns);
    let blocks = array.blocks();
    let rows = blocks.saturating_mul(32);
    let last_row = rows.saturating_sub(1);
    Found {
        blocks,
        last: array.code(last_row, columns.saturating_sub(1)),
        past_row: array.code(rows, 0),
        past_column: array.code(last_row, columns),
        programs_last: array.program(last_row, page, false),
        programs_past: array.program(rows, page, false),
        fills_last: array.fill(blocks.saturating_sub(1), 0),
        fills_past: array.fill(blocks, 0),
    }
}

// How many bytes of a slice are still as they were. The sum cannot wrap: a slice is shorter than that.
fn untouched(bytes: &[u8]) -> usize {
    bytes
        .iter()
        .fold(0usize, |n, b| n.wrapping_add(usize::from(*b == OLD)))
}

fn yes(b: bool) -> &'static str {
    if b { "yes" } else { "no" }
}

fn one(rt: &HostRuntime, case: Case) -> io::Result<()> {
    let heap = rt.alloc();
    let columns = case.columns;
    let expected = case.blocks;
    let mut words = vec![in heap; OLD; case.words]?;
    let mut counts = vec![in heap; OLD; case.counts]?;
    let page = vec![in heap; 0x0Fu16; columns.min(5000)]?;
    let found = probe(&mut words, &mut counts, columns, &page);
    let blocks = found.blocks;
    let words_kept = untouched(&words);
    let counts_kept = untouched(&counts);
    let word_count = case.words;
    let count_count = case.counts;
    println!(rt;
        "{columns} columns, {word_count} words, {count_count} counts: {blocks} blocks of {expected}; {words_kept} words and {counts_kept} counts untouched"
    )?;
    let last = found.last;
    let past_row = found.past_row;
    let past_column = found.past_column;
    println!(rt;
        "  new: last {last:02X}, past the rows {past_row:02X}, past the columns {past_column:02X}"
    )?;
    let a = yes(found.programs_last);
    let b = yes(found.programs_past);
    let c = yes(found.fills_last);
    let d = yes(found.fills_past);
    println!(rt;
        "  programs the last row {a}, the next {b}; fills the last block {c}, the next {d}"
    )
}

const CASES: [Case; 13] = [
    Case {
        columns: 4,
        words: 0,
        counts: 0,
        blocks: 0,
    },
    Case {
        columns: 4,
        words: 127,
        counts: 32,
        blocks: 0,
    },
    Case {
        columns: 4,
        words: 128,
        counts: 31,
        blocks: 0,
    },
    Case {
        columns: 4,
        words: 128,
        counts: 32,
        blocks: 1,
    },
    Case {
        columns: 4,
        words: 383,
        counts: 96,
        blocks: 2,
    },
    Case {
        columns: 4,
        words: 384,
        counts: 95,
        blocks: 2,
    },
    Case {
        columns: 4,
        words: 384,
        counts: 96,
        blocks: 3,
    },
    Case {
        columns: 4,
        words: 401,
        counts: 125,
        blocks: 3,
    },
    Case {
        columns: 0,
        words: 401,
        counts: 125,
        blocks: 0,
    },
    Case {
        columns: 4096,
        words: 131072,
        counts: 33,
        blocks: 1,
    },
    Case {
        columns: 4097,
        words: 131104,
        counts: 33,
        blocks: 0,
    },
    Case {
        columns: 18446744073709551615,
        words: 401,
        counts: 125,
        blocks: 0,
    },
    Case {
        columns: 1,
        words: 131104,
        counts: 131200,
        blocks: 4096,
    },
];

pub fn run(rt: &HostRuntime) -> io::Result<()> {
    for case in CASES {
        one(rt, case)?;
    }
    Ok(())
}
