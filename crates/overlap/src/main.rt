// One page written in two overlapping parts, in one order and in the other: a program only lowers cells, so both end alike.
#![tactic(auto)]

mod page;
mod show;

use arrays::FlatArray;
use page::{COLUMNS, part, torn};
use show::NamedPage;
use std::alloc::{AllocError, Global};
use std::io;
use words::{DoubtingByte, Word};

// Erased memory for one block of words, and its counts.
fn block_of_words<W: Word + Clone>(heap: Global) -> Result<Vec<W>, AllocError> {
    vec![in heap; W::erased(); 32 * COLUMNS]
}

fn counts(heap: Global) -> Result<Vec<u8>, AllocError> {
    vec![in heap; 0u8; 32]
}

// Programs both pages in one order and, in other memory, in the other order.
fn in_both_orders<W: Word + Clone>(
    rt: &HostRuntime,
    page: NamedPage,
    next: NamedPage,
) -> io::Result<()> {
    let heap = rt.alloc();
    let mut words = block_of_words::<W>(heap)?;
    let mut row_counts = counts(heap)?;
    let mut other_words = block_of_words::<W>(heap)?;
    let mut other_counts = counts(heap)?;
    let mut one = FlatArray::new(&mut words, &mut row_counts, COLUMNS);
    let mut other = FlatArray::new(&mut other_words, &mut other_counts, COLUMNS);
    show::in_order(rt, &mut one, [page, next])?;
    show::in_order(rt, &mut other, [next, page])?;
    show::verdict(rt, &one, &other)?;
    show::filled(rt, &mut one, W::erased().to_code())
}

// Both parts are programmed as they are.
fn bytes(rt: &HostRuntime) -> io::Result<()> {
    println!(rt; "Bytes: 0F in columns 0 to 299, 3C in columns 200 to 527")?;
    let erased = <u8 as Word>::erased().to_code();
    let low = NamedPage {
        name: "0F",
        codes: &part(0..300, 0x0F, erased),
    };
    let high = NamedPage {
        name: "3C",
        codes: &part(200..528, 0x3C, erased),
    };
    in_both_orders::<u8>(rt, low, high)
}

// The second part is interrupted: what it would have cleared is left in doubt.
fn doubting_bytes(rt: &HostRuntime) -> io::Result<()> {
    println!(rt;
        "Doubting bytes: 0F in columns 0 to 299, then 3C in columns 200 to 527, interrupted"
    )?;
    let erased = DoubtingByte::erased().to_code();
    let low = NamedPage {
        name: "0F",
        codes: &part(0..300, 0x0F, erased),
    };
    let high = NamedPage {
        name: "torn 3C",
        codes: &torn::<DoubtingByte>(part(200..528, 0x3C, erased)),
    };
    in_both_orders::<DoubtingByte>(rt, low, high)
}

fn main(rt: HostRuntime) -> io::Result<()> {
    bytes(&rt)?;
    doubting_bytes(&rt)
}
