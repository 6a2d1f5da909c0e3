// What is printed of a comparison.
use crate::settings::Settings;
use arrays::CellArray;
use compare::answers::count_answers;
use compare::cells::Pair;
use compare::compare::Comparison;
use std::io;

pub fn answers(
    rt: &HostRuntime,
    name: &str,
    other_name: &str,
    comparison: &Comparison,
) -> io::Result<()> {
    let tally = count_answers(&comparison.answers);
    println!(rt; "{name}: {tally}")?;
    let other_tally = count_answers(&comparison.other_answers);
    println!(rt; "{other_name}: {other_tally}")?;
    if comparison.answers_equal {
        println!(rt; "  all answers are equal")
    } else {
        println!(rt; "  the answers are not equal")
    }
}

pub fn equal(rt: &HostRuntime, settings: Settings) -> io::Result<()> {
    let blocks = settings.blocks;
    println!(rt; "  the chips are equal in all cells of {blocks} blocks")
}

// Where the chips first differ, and how many words differ in which blocks.
pub fn different<A: CellArray, B: CellArray>(
    rt: &HostRuntime,
    settings: Settings,
    one: &A,
    other: &B,
) -> io::Result<()> {
    let pair = Pair { one, other };
    let columns = settings.part.columns();
    println!(rt; "  the chips are not equal in all cells")?;
    if let Some(place) = pair.first_difference(settings.blocks, usize::from(columns)) {
        let block = place.row / 32;
        let page = place.row % 32;
        let column = place.column;
        let code = place.code;
        let other_code = place.other_code;
        println!(rt;
            "  they differ first at block {block}, page {page}, column {column}: {code:02X}h and {other_code:02X}h"
        )?;
    }
    // over the numbers themselves: there is no list of blocks
    for block in 0..settings.blocks {
        let apart = pair.apart_in_block(block, columns);
        if apart > 0 {
            println!(rt; "  block {block}: {apart} words differ")?;
        }
    }
    Ok(())
}
