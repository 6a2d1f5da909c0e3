// What the arguments ask for: a word that is a part's name chooses the part, a number the number of blocks, and all others are files.
ghost use Rattle.std.specs.Prelude.{◌≡◌, ℕ, ◌<◌, ◌≤◌, IfOk};
ghost use Rattle.rules.specs.Parts.{most_blocks};
ghost use Rattle.sameimage.specs.Chosen.{chosen_blocks, Chosen};

use anyhow::Context;
use rules::part::Part;
use std::alloc::Global;

#[derive(Clone, Copy)]
pub struct Settings {
    pub part: Part,
    pub blocks: u32,
}

// The part's most blocks, unless fewer are asked for.
fn blocks_of(part: Part, asked: Option<u32>) -> Option<u32>
    ensures { result ≡ chosen_blocks part asked }
{
    let most = part.most_blocks();
    let blocks = asked.unwrap_or(most);
    (0 < blocks && blocks <= most).then_some(blocks)
}

// Sorts the arguments into names of files and settings; the part has so many blocks.
pub fn take_settings(
    heap: Global,
    arguments: Vec<String>,
) -> anyhow::Result<(Vec<String>, Settings)>
    ensures { IfOk result (λ p. Chosen p.1.part p.1.blocks) }
{
    let mut names = Vec::new(heap);
    let mut part = Part::K9K1208;
    let mut asked = None;
    for word in arguments {
        if let Ok(chosen) = word.parse() {
            part = chosen;
        } else if let Ok(blocks) = word.parse() {
            asked = Some(blocks);
        } else {
            names.push(word)?;
        }
    }
    let blocks = blocks_of(part, asked).context("the part has not so many blocks")?;
    Ok((names, Settings { part, blocks }))
}
