// Cases on byte words, on a part that does not lock.
use crate::bench::{K9F2808, play_on_new};
use crate::case::Case;
use crate::expected::{gives, refuses, taken};
use records::call::Call;
use refusals::Refusal;
use std::alloc::{AllocError, Global};

fn both(heap: Global, title: &'static str, first: u16, second: u16) -> Result<Case, AllocError> {
    let mut case = Case::new(heap, title);
    case.program(first)?;
    case.program(second)?;
    case.read_word(0, 0, 0x0C)?;
    Ok(case)
}

fn row_cycles(heap: Global) -> Result<Case, AllocError> {
    let mut case = Case::new(heap, "row cycles 00h, 80h mean row 0");
    case.program(0x5A)?;
    case.read_word(0x00, 0x80, 0x5A)?;
    Ok(case)
}

fn limit(heap: Global) -> Result<Case, AllocError> {
    let mut case = Case::new(heap, "limit 3: three programs land, the fourth is refused");
    case.program(0xFE)?;
    case.program(0xFD)?;
    case.program(0xFB)?;
    case.expect(&[gives(Call::Look { row: 0, column: 0 }, 0xF8)])?;
    case.load(0xF7)?;
    case.expect(&[refuses(Call::Command(0x10), Refusal::PageFull)])?;
    Ok(case)
}

fn busy(heap: Global) -> Result<Case, AllocError> {
    let mut case = Case::new(heap, "busy, write protect high, no fail: the status");
    case.expect(&[taken(Call::Protect(1))])?;
    case.start(0x0F)?;
    case.expect(&[gives(Call::Read, 0x80)])?;
    Ok(case)
}

// Each case is made when its turn comes, so that no memory is asked for a later one before an earlier one is shown.
pub fn run(rt: &HostRuntime) -> anyhow::Result<()> {
    let heap = rt.alloc();
    let play = |case: Case| play_on_new::<u8>(rt, K9F2808, &case);
    play(both(heap, "0Fh, then 3Ch programmed at one place", 0x0F, 0x3C)?)?;
    play(both(heap, "3Ch, then 0Fh programmed at one place", 0x3C, 0x0F)?)?;
    play(row_cycles(heap)?)?;
    play(limit(heap)?)?;
    play(busy(heap)?)
}
