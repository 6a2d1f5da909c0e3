// Cases on the doubting byte.
use crate::bench::{K9F2808, play_on_new};
use crate::case::Case;
use crate::expected::{refuses, taken};
use records::call::Call;
use refusals::Refusal;
use std::alloc::{AllocError, Global};
use words::DoubtingByte;

fn cut_off(heap: Global) -> Result<Case, AllocError> {
    let mut case = Case::new(
        heap,
        "doubting byte: 0Fh cut by FFh, then F0h landed, then 0101h",
    );
    case.start(0x0F)?;
    case.expect(&[taken(Call::Command(0xFF))])?;
    case.read_word(0, 0, 0xF00F)?;
    case.program(0xF0)?;
    case.read_word(0, 0, 0xF000)?;
    case.expect(&[refuses(Call::Write(0x0101), Refusal::Unlawful)])?;
    Ok(case)
}

pub fn run(rt: &HostRuntime) -> anyhow::Result<()> {
    play_on_new::<DoubtingByte>(rt, K9F2808, &cut_off(rt.alloc())?)
}
