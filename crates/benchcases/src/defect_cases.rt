// A case on an array with a listed block.
use crate::bench::{COLUMNS, K9F2808, ROWS};
use crate::case::Case;
use crate::expected::{gives, play_case, refuses, taken};
use anyhow::Context;
use arrays::{DefectArray, FlatArray};
use chip::Chip;
use records::call::Call;
use refusals::Refusal;
use std::alloc::{AllocError, Global};

fn settles(heap: Global) -> Result<Case, AllocError> {
    let mut case = Case::new(heap, "settle on a listed block, and the status");
    case.start(0x0F)?;
    case.expect(&[
        refuses(Call::Settle, Refusal::ArrayFailed),
        taken(Call::Command(0x70)),
        gives(Call::Read, 0xC1),
    ])?;
    Ok(case)
}

pub fn run(rt: &HostRuntime) -> anyhow::Result<()> {
    let heap = rt.alloc();
    let mut words = vec![in heap; 0xFFu8; ROWS * COLUMNS]?;
    let mut counts = vec![in heap; 0u8; ROWS]?;
    let mut array = DefectArray::new(FlatArray::new(&mut words, &mut counts, COLUMNS));
    array.list(0).context("the block is not listed")?;
    let mut chip = Chip::open(K9F2808, array);
    let case = settles(heap)?;
    play_case(rt, case.title, &mut chip, &case.steps)
}
