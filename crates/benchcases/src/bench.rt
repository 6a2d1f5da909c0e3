// New chips that cases are played on.
use crate::case::Case;
use crate::expected::play_case;
use arrays::FlatArray;
use chip::Chip;
use rules::control::Opening;
use rules::part::Part;
use words::Word;

// Two blocks of 528 columns, and a count for each row.
pub const COLUMNS: usize = 528;

pub const ROWS: usize = 2 * 32;

pub const K9K1208: Opening = Opening {
    part: Part::K9K1208,
    device: 0x76,
    limit: 3,
};

pub const K9F2808: Opening = Opening {
    part: Part::K9F2808,
    device: 0x73,
    limit: 3,
};

// Plays a case on a new chip of two blocks. Each program has its own memory and opening: a library for two lines is no plainer.
pub(crate) fn play_on_new<W: Word + Clone>(
    rt: &HostRuntime,
    opening: Opening,
    case: &Case,
) -> anyhow::Result<()> {
    let heap = rt.alloc();
    let mut words = vec![in heap; W::erased(); ROWS * COLUMNS]?;
    let mut counts = vec![in heap; 0u8; ROWS]?;
    let array = FlatArray::new(&mut words, &mut counts, COLUMNS);
    let mut chip = Chip::open(opening, array);
    play_case(rt, case.title, &mut chip, &case.steps)
}
