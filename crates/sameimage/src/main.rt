// Plays two traces, each on a new chip, and says whether the two chips end equal in all cells.
#![tactic(auto)]

mod report;
mod settings;
mod sides;

use anyhow::{bail, ensure};
use rules::part::Part;
use settings::{Settings, take_settings};
use sides::{TraceFile, compare_sides, read_file};
use std::env;

// Compares the first trace with each of the others.
fn compare_all(rt: &HostRuntime, names: &[String], settings: Settings) -> anyhow::Result<()> {
    let [name, others @ ..] = names else {
        bail!("give two trace files");
    };
    ensure!(!others.is_empty(), "give two trace files");
    let bytes = read_file(rt, name)?;
    let one = TraceFile {
        name,
        bytes: &bytes,
    };
    for other_name in others {
        let other_bytes = read_file(rt, other_name)?;
        let other = TraceFile {
            name: other_name,
            bytes: &other_bytes,
        };
        // the width of a word is a type, so that each part's is named here
        match settings.part {
            Part::K9K1216 => compare_sides::<u16>(rt, settings, one, other)?,
            Part::K9K1208 | Part::K9F2808 => compare_sides::<u8>(rt, settings, one, other)?,
        }
    }
    Ok(())
}

fn main(rt: HostRuntime) -> anyhow::Result<()> {
    let arguments: Vec<String> = env::args(&rt)?.skip(1).collect(rt.alloc())?;
    let (names, settings) = take_settings(rt.alloc(), arguments)?;
    compare_all(&rt, &names, settings)
}
