// Every code of each word kind, and a spread of joins, held against levels that are computed cell by cell.
#![tactic(auto)]

mod reference;

use reference::Reference;
use refusals::Refusal;
use std::io;
use words::{DoubtingByte, Word};

// Whether a stored word, its torn form and its code agree with the reference.
fn agrees<W: Word>(kind: Reference, code: u16, word: W) -> bool {
    let torn = word.torn().to_code();
    let is_torn = (0..kind.cells()).all(|cell| kind.level(torn, cell)
        == kind.torn_level(code, cell));
    is_torn && kind.is_lawful(code) && word.to_code() == code && kind.is_lawful(torn)
}

// One code: taken where it is lawful, else refused with the number 2.
fn code_is_right<W: Word>(kind: Reference, code: u16) -> bool {
    match W::from_code(code) {
        Ok(word) => agrees(kind, code, word),
        Err(refusal) => !kind.is_lawful(code) && refusal.number() == 2,
    }
}

fn lawful_codes<W: Word>() -> usize {
    (0..=u16::MAX)
        .filter(|code| W::from_code(*code).is_ok())
        .count()
}

fn wrong_codes<W: Word>(kind: Reference) -> usize {
    (0..=u16::MAX)
        .filter(|code| !code_is_right::<W>(kind, *code))
        .count()
}

// One join: in each cell the lower level.
fn join_is_right<W: Word>(kind: Reference, a: u16, b: u16) -> Result<bool, Refusal> {
    let joined = W::from_code(a)?.join(W::from_code(b)?).to_code();
    let is_lower = (0..kind.cells()).all(|cell| kind.level(joined, cell)
        == kind.level(a, cell).min(kind.level(b, cell)));
    Ok(is_lower && kind.is_lawful(joined))
}

// The join of two lawful codes, chosen by a number.
fn nth_join_is_right<W: Word>(kind: Reference, i: u32) -> bool {
    let a = kind.nth_lawful(i.wrapping_mul(40503).wrapping_add(11));
    let b = kind.nth_lawful(i.wrapping_mul(30011).wrapping_add(77));
    join_is_right::<W>(kind, a, b) == Ok(true)
}

fn wrong_joins<W: Word>(kind: Reference) -> usize {
    (0..20000u32)
        .filter(|i| !nth_join_is_right::<W>(kind, *i))
        .count()
}

fn report<W: Word>(rt: &HostRuntime, name: &str, kind: Reference) -> io::Result<()> {
    let lawful = lawful_codes::<W>();
    let wrong = wrong_codes::<W>(kind);
    let wrong_joins = wrong_joins::<W>(kind);
    let cells = W::cells();
    let erased = W::erased().to_code();
    let torn_erase = W::torn_erase().to_code();
    println!(rt; "{name}: {cells} cells, erased {erased:04X}, torn erase {torn_erase:04X}")?;
    println!(rt;
        "  of 65536 codes {lawful} are lawful, {wrong} came out wrong; of 20000 joins {wrong_joins} came out wrong"
    )
}

fn main(rt: HostRuntime) -> io::Result<()> {
    report::<u8>(&rt, "byte", Reference::Bits(8))?;
    report::<u16>(&rt, "16-bit word", Reference::Bits(16))?;
    report::<DoubtingByte>(&rt, "doubting byte", Reference::Doubting)
}
