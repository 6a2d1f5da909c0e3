// A case: what it shows, and the calls with the answers that are expected of them.
ghost use Rattle.std.specs.Prelude.{◌≡◌, [], ◌++◌, OnOk};

use crate::expected::{Expected, gives, taken};
use records::call::Call;
use std::alloc::{AllocError, Global};

#[derive(Drop)]
pub struct Case {
    pub title: &'static str,
    pub steps: Vec<Expected>,
}

impl Case {
    pub(crate) fn new(heap: Global, title: &'static str) -> Case
        ensures title { result.title.now ≡ title.now }
        ensures steps { result.steps.items ≡ [] }
    {
        Case {
            title,
            steps: Vec::new(heap),
        }
    }

    pub(crate) fn expect(&mut self, steps: &[Expected]) -> Result<(), AllocError>
        ensures { OnOk result (self.new.steps.items ≡ self.old.steps.items ++ steps.now) }
    {
        self.steps.extend_from_slice(steps)
    }

    // A column cycle and three row cycles, for rows below 256.
    pub(crate) fn place(&mut self, column: u8, row: u8) -> Result<(), AllocError> {
        self.expect(&[taken(Call::Address(column))])?;
        self.rows(row)
    }

    // Three row cycles, for rows below 256.
    pub(crate) fn rows(&mut self, row: u8) -> Result<(), AllocError> {
        self.expect(&[
            taken(Call::Address(row)),
            taken(Call::Address(0)),
            taken(Call::Address(0)),
        ])
    }

    // Unlocks the blocks from one to another; the last cycle is left out.
    pub(crate) fn unlock_up_to(&mut self, first: u8, last: u8) -> Result<(), AllocError> {
        self.expect(&[taken(Call::Command(0x23))])?;
        self.rows(first)?;
        self.expect(&[
            taken(Call::Command(0x24)),
            taken(Call::Address(last)),
            taken(Call::Address(0)),
        ])
    }

    pub(crate) fn unlock(&mut self, first: u8, last: u8) -> Result<(), AllocError> {
        self.unlock_up_to(first, last)?;
        self.expect(&[taken(Call::Address(0))])
    }

    // On K9F2808, which has two row cycles: loads a word at the first column of row 0.
    pub(crate) fn load(&mut self, word: u16) -> Result<(), AllocError> {
        self.expect(&[
            taken(Call::Command(0x80)),
            taken(Call::Address(0)),
            taken(Call::Address(0)),
            taken(Call::Address(0)),
            taken(Call::Write(word)),
        ])
    }

    // Loads the word and starts the program.
    pub(crate) fn start(&mut self, word: u16) -> Result<(), AllocError> {
        self.load(word)?;
        self.expect(&[taken(Call::Command(0x10))])
    }

    // Programs the word, and waits for the end.
    pub(crate) fn program(&mut self, word: u16) -> Result<(), AllocError> {
        self.start(word)?;
        self.expect(&[taken(Call::Settle)])
    }

    // On K9F2808: reads the first word of a row whose two cycles are given.
    pub(crate) fn read_word(&mut self, low: u8, high: u8, word: u16) -> Result<(), AllocError> {
        self.expect(&[
            taken(Call::Command(0x00)),
            taken(Call::Address(0)),
            taken(Call::Address(low)),
            taken(Call::Address(high)),
            gives(Call::Read, word),
        ])
    }
}
