// A list of up to 32 blocks, in place. It is the repository's own, so that its contract is proved here, and not taken from another crate.
ghost use Rattle.std.specs.Prelude.{◌≡◌, ℕ, not, [], ◌∷◌, ◌++◌, length, take, nat_lt, cond, Ok, Err};
ghost use Rattle.refusals.specs.declared.Refusal.TheVariants.{ListFull};
ghost use Rattle.arrays.specs.Defect.{listed};

use refusals::Refusal;

// The most blocks that may be listed.
const MOST_LISTED: usize = 32;

#[derive(Drop)]
pub(crate) struct DefectList {
    // the listed blocks are the first `used`, or all 32
    blocks: [usize; MOST_LISTED],
    used: usize,
}

impl DefectList {
    pub(crate) fn new() -> Self
        ensures { take result.used result.blocks ≡ [] }
    {
        DefectList {
            blocks: [0; MOST_LISTED],
            used: 0,
        }
    }

    // The listed blocks, in the order in which they came.
    pub(crate) fn as_slice(&self) -> &[usize]
        ensures { result.now ≡ take self.now.used self.now.blocks }
    {
        &self.blocks[..self.used.min(MOST_LISTED)]
    }

    pub(crate) fn contains(&self, block: usize) -> bool
        ensures { result ≡ listed (take self.now.used self.now.blocks) block }
    {
        // all are looked at, with no branch: at 32 this is much quicker than to stop at the first that fits
        self.as_slice()
            .iter()
            .fold(false, |found, listed| (*listed == block) | found)
    }

    pub(crate) fn is_full(&self) -> bool
        ensures counted { result ≡ not (nat_lt self.now.used 32) }
        ensures full { result ≡ not (nat_lt (length (take self.now.used self.now.blocks)) 32) }
    {
        self.used >= MOST_LISTED
    }

    // Lists one more block, unless the list is full.
    pub(crate) fn try_push(&mut self, block: usize) -> Result<(), Refusal>
        ensures answer { result ≡ cond (nat_lt (length (take self.old.used self.old.blocks)) 32) (Ok tt) (Err ListFull) }
        ensures after { take self.new.used self.new.blocks ≡ cond (nat_lt (length (take self.old.used self.old.blocks)) 32) (take self.old.used self.old.blocks ++ block ∷ []) (take self.old.used self.old.blocks) }
    {
        if self.is_full() {
            return Err(Refusal::ListFull);
        }
        self.blocks[self.used] = block;
        self.used += 1;
        Ok(())
    }
}
