// Two new chips, a trace on each, and what came of it.
use crate::report;
use crate::settings::Settings;
use anyhow::anyhow;
use arrays::CellArray;
use compare::builds::{Build, compare_builds};
use compare::error::{CompareError, Side};
use rules::control::Opening;
use std::fs;
use words::Word;

// The device code and the limit of programs a page, alike on both sides.
const DEVICE: u8 = 0x76;

const LIMIT: u8 = 3;

// The trace of a side, and the name of its file.
#[derive(Clone, Copy)]
pub struct TraceFile<'a> {
    pub name: &'a str,
    pub bytes: &'a [u8],
}

pub fn read_file(rt: &HostRuntime, name: &str) -> anyhow::Result<Vec<u8>> {
    fs::read(rt, name).map_err(|error| anyhow!("{name}: {error}"))
}

// A message for a comparison that was not made: of a trace that was not read it names the file.
fn message(error: CompareError, one: TraceFile, other: TraceFile) -> anyhow::Error {
    let file = match error {
        CompareError::NotRead {
            side: Side::One,
            ..
        } => one.name,
        CompareError::NotRead {
            side: Side::Other,
            ..
        } => other.name,
        CompareError::NoMemory | CompareError::TooLarge => return anyhow!("{error}"),
    };
    anyhow!("{file}: {error}")
}

pub fn compare_sides<W: Word + Clone>(
    rt: &HostRuntime,
    settings: Settings,
    one: TraceFile,
    other: TraceFile,
) -> anyhow::Result<()> {
    let heap = rt.alloc();
    let columns = usize::from(settings.part.columns());
    let rows = 32 * settings.blocks as usize;
    let opening = Opening {
        part: settings.part,
        device: DEVICE,
        limit: LIMIT,
    };
    let mut words = vec![in heap; W::erased(); rows * columns]?;
    let mut counts = vec![in heap; 0u8; rows]?;
    let mut other_words = vec![in heap; W::erased(); rows * columns]?;
    let mut other_counts = vec![in heap; 0u8; rows]?;
    let build = Build {
        words: &mut words,
        counts: &mut counts,
        trace: one.bytes,
    };
    let other_build = Build {
        words: &mut other_words,
        counts: &mut other_counts,
        trace: other.bytes,
    };
    let builds = compare_builds(heap, opening, build, other_build).map_err(|error| message(
        error, one, other,
    ))?;
    report::answers(rt, one.name, other.name, &builds.comparison)?;
    if builds.comparison.cells_equal {
        report::equal(rt, settings)?;
    } else {
        report::different(rt, settings, builds.one.array(), builds.other.array())?;
    }
    Ok(())
}
