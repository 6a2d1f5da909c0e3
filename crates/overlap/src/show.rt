// What was done and what was found, in words.
use crate::page::COLUMNS;
use arrays::CellArray;
use compare::cells::Pair;
use std::io;

// The row that is programmed.
const ROW: usize = 7;

// The codes of a page, and what they are called.
#[derive(Clone, Copy)]
pub struct NamedPage<'a> {
    pub name: &'a str,
    pub codes: &'a [u16],
}

fn found<A: CellArray>(rt: &HostRuntime, array: &A) -> io::Result<()> {
    let a = array.code(ROW, 0);
    let b = array.code(ROW, 250);
    let c = array.code(ROW, 400);
    println!(rt; "    found {a:04X} at column 0, {b:04X} at column 250, {c:04X} at column 400")
}

fn program<A: CellArray>(rt: &HostRuntime, array: &mut A, page: NamedPage) -> io::Result<()> {
    let name = page.name;
    if array.program(ROW, page.codes, false) {
        println!(rt; "  programmed {name}")?;
    } else {
        println!(rt; "  {name} failed")?;
    }
    found(rt, array)
}

// Programs the row with one page and then with another.
pub fn in_order<A: CellArray>(
    rt: &HostRuntime,
    array: &mut A,
    pages: [NamedPage; 2],
) -> io::Result<()> {
    for page in pages {
        program(rt, array, page)?;
    }
    Ok(())
}

// Whether the row ended alike in two arrays.
pub fn verdict<A: CellArray, B: CellArray>(rt: &HostRuntime, one: &A, other: &B) -> io::Result<()> {
    match (Pair { one, other }).first_in_row(ROW, COLUMNS) {
        None => println!(rt; "  all {COLUMNS} words are alike in both orders")?,
        Some(column) => println!(rt; "  the two orders differ first at column {column}")?,
    }
    let a = one.count(ROW);
    let b = other.count(ROW);
    println!(rt; "  the row was programmed {a} times and {b} times")
}

// Fills the block, and shows the row again.
pub fn filled<A: CellArray>(rt: &HostRuntime, array: &mut A, code: u16) -> io::Result<()> {
    if array.fill(ROW / 32, code) {
        println!(rt; "  filled the block with {code:04X}")?;
    } else {
        println!(rt; "  the fill failed")?;
    }
    found(rt, array)?;
    let n = (*array).count(ROW);
    println!(rt; "  the row counts {n} programs")
}
