// A flat array and a defect array as one stack, and a stack of stacks.
use arrays::{CellArray, DefectArray, FlatArray, Stack};
use std::alloc::{AllocError, Global};
use std::io;

const COLUMNS: usize = 4;

// Memory for so many blocks, and its counts.
fn memory(heap: Global, blocks: usize) -> Result<(Vec<u8>, Vec<u8>), AllocError> {
    let words = vec![in heap; 0u8; blocks.saturating_mul(32 * COLUMNS)]?;
    let counts = vec![in heap; 0u8; blocks.saturating_mul(32)]?;
    Ok((words, counts))
}

fn show<A: CellArray>(rt: &HostRuntime, name: &str, array: &A) -> io::Result<()> {
    let blocks = array.blocks();
    let columns = array.columns();
    println!(rt; "{name}: {blocks} blocks, {columns} columns")
}

fn told(done: bool) -> &'static str {
    if done { "done" } else { "failed" }
}

// Programs a row, and shows whether it was done, the code in its first column and its count.
fn program<A: CellArray>(rt: &HostRuntime, array: &mut A, row: usize, code: u16) -> io::Result<()> {
    let done = told(array.program(row, &[code; COLUMNS], false));
    let found = (*array).code(row, 0);
    let count = (*array).count(row);
    println!(rt; "  program row {row} with {code:02X}: {done}; it reads {found:02X}, count {count}")
}

fn fill<A: CellArray>(rt: &HostRuntime, array: &mut A, block: usize, code: u16) -> io::Result<()> {
    let done = told(array.fill(block, code));
    let found = (*array).code(block.saturating_mul(32), 0);
    println!(rt; "  fill block {block} with {code:02X}: {done}; its first row reads {found:02X}")
}

fn list<A: CellArray>(
    rt: &HostRuntime,
    array: &mut DefectArray<A>,
    block: usize,
) -> io::Result<()> {
    match array.list(block) {
        Ok(value) => println!(rt; "  list block {block}: {value}"),
        Err(refusal) => {
            let number = refusal.number();
            println!(rt; "  list block {block}: refused with {number}, {refusal}")
        }
    }
}

// Two blocks below, three above of which the second is bad.
fn seam(rt: &HostRuntime) -> io::Result<()> {
    let heap = rt.alloc();
    let (mut words, mut counts) = memory(heap, 2)?;
    let (mut more_words, mut more_counts) = memory(heap, 3)?;
    let lower = FlatArray::new(&mut words, &mut counts, COLUMNS);
    let mut upper = DefectArray::new(FlatArray::new(&mut more_words, &mut more_counts, COLUMNS));
    list(rt, &mut upper, 1)?;
    list(rt, &mut upper, 1)?;
    list(rt, &mut upper, 3)?;
    let mut stack = Stack::new(lower, upper);
    show(
        rt,
        "two blocks, then three of which the second is bad",
        &stack,
    )?;
    program(rt, &mut stack, 63, 0x0F)?;
    program(rt, &mut stack, 64, 0x0F)?;
    program(rt, &mut stack, 64, 0x3C)?;
    program(rt, &mut stack, 95, 0x0F)?;
    program(rt, &mut stack, 96, 0x0F)?;
    program(rt, &mut stack, 128, 0x0F)?;
    program(rt, &mut stack, 160, 0x0F)?;
    fill(rt, &mut stack, 1, 0x55)?;
    fill(rt, &mut stack, 2, 0x55)?;
    fill(rt, &mut stack, 3, 0x55)?;
    fill(rt, &mut stack, 5, 0x55)
}

// A full list: a block that is listed already is still taken.
fn full(rt: &HostRuntime) -> io::Result<()> {
    let heap = rt.alloc();
    let (mut words, mut counts) = memory(heap, 40)?;
    let mut array = DefectArray::new(FlatArray::new(&mut words, &mut counts, COLUMNS));
    // over the numbers themselves: there is no list of blocks
    for block in 0..32usize {
        let _ = array.list(block);
    }
    let listed = array.defects().len();
    println!(rt; "{listed} blocks of 40 are listed")?;
    list(rt, &mut array, 31)?;
    list(rt, &mut array, 32)?;
    list(rt, &mut array, 40)
}

// A stack over a stack, and one of arrays with different columns.
fn nested(rt: &HostRuntime) -> io::Result<()> {
    let heap = rt.alloc();
    let (mut a, mut a_counts) = memory(heap, 1)?;
    let (mut b, mut b_counts) = memory(heap, 1)?;
    let (mut c, mut c_counts) = memory(heap, 2)?;
    let pair = Stack::new(
        FlatArray::new(&mut a, &mut a_counts, COLUMNS),
        FlatArray::new(&mut b, &mut b_counts, COLUMNS),
    );
    let mut three = Stack::new(pair, FlatArray::new(&mut c, &mut c_counts, COLUMNS));
    show(rt, "one block, one block, two blocks", &three)?;
    program(rt, &mut three, 31, 0x11)?;
    program(rt, &mut three, 32, 0x22)?;
    program(rt, &mut three, 64, 0x44)?;
    program(rt, &mut three, 127, 0x88)?;
    program(rt, &mut three, 128, 0x88)?;
    let (mut d, mut d_counts) = memory(heap, 1)?;
    let odd = Stack::new(three, FlatArray::new(&mut d, &mut d_counts, 2));
    show(rt, "with an array of two columns above it", &odd)
}

pub fn run(rt: &HostRuntime) -> io::Result<()> {
    seam(rt)?;
    full(rt)?;
    nested(rt)
}
