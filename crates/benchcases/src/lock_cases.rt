// Cases on K9K1208, whose blocks are locked at first.
use crate::bench::{K9K1208, play_on_new};
use crate::case::Case;
use crate::expected::{gives, refuses, taken};
use records::call::Call;
use refusals::Refusal;
use std::alloc::{AllocError, Global};

fn last_column(heap: Global) -> Result<Case, AllocError> {
    let mut case = Case::new(heap, "50h, 80h, column 15: one write is taken");
    case.expect(&[taken(Call::Command(0x50)), taken(Call::Command(0x80))])?;
    case.place(15, 0)?;
    case.expect(&[
        taken(Call::Write(1)),
        refuses(Call::Write(2), Refusal::NoColumn),
    ])?;
    Ok(case)
}

fn last_row(heap: Global) -> Result<Case, AllocError> {
    let mut case = Case::new(heap, "two blocks: row 63 is taken, row 64 is not");
    case.expect(&[taken(Call::Command(0x60))])?;
    case.rows(63)?;
    case.expect(&[
        taken(Call::Command(0x60)),
        taken(Call::Address(64)),
        taken(Call::Address(0)),
        refuses(Call::Address(0), Refusal::Outside),
    ])?;
    Ok(case)
}

fn opens(heap: Global) -> Result<Case, AllocError> {
    let mut case = Case::new(heap, "unlock 1 to 1: the lock codes of blocks 1 and 0");
    case.unlock(32, 32)?;
    case.expect(&[taken(Call::Command(0x7A))])?;
    case.rows(32)?;
    case.expect(&[gives(Call::Read, 4), taken(Call::Command(0x7A))])?;
    case.rows(0)?;
    case.expect(&[gives(Call::Read, 2)])?;
    Ok(case)
}

fn empty_range(heap: Global) -> Result<Case, AllocError> {
    let mut case = Case::new(heap, "unlock 1 to 0");
    case.unlock_up_to(32, 0)?;
    case.expect(&[refuses(Call::Address(0), Refusal::Locked)])?;
    Ok(case)
}

fn other_plane(heap: Global) -> Result<Case, AllocError> {
    let mut case = Case::new(heap, "copy-back from block 0 to open block 1");
    case.unlock(32, 32)?;
    case.expect(&[taken(Call::Command(0x00))])?;
    case.place(0, 0)?;
    case.expect(&[
        taken(Call::Command(0x8A)),
        taken(Call::Address(0)),
        taken(Call::Address(32)),
        taken(Call::Address(0)),
        refuses(Call::Address(0), Refusal::OtherPlane),
    ])?;
    Ok(case)
}

// Each case is made when its turn comes, as those of bytes are.
pub fn run(rt: &HostRuntime) -> anyhow::Result<()> {
    let heap = rt.alloc();
    let play = |case: Case| play_on_new::<u8>(rt, K9K1208, &case);
    play(last_column(heap)?)?;
    play(last_row(heap)?)?;
    play(opens(heap)?)?;
    play(empty_range(heap)?)?;
    play(other_plane(heap)?)
}
