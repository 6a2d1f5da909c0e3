// What a chip holds besides its array.
ghost use Rattle.std.specs.Prelude.{◌≡◌, ℕ};
ghost use Rattle.rules.specs.Answering.{fits};
ghost use Rattle.rules.specs.Controls.{fresh, status_of, in_range, is_open, is_protected, lock_code};

use crate::part::{Part, Pointer};
use crate::register::PageRegister;
use crate::state::{Purpose, State};

// What a chip is opened with, besides its array.
#[derive(Clone, Copy)]
pub struct Opening {
    pub part: Part,
    // the device code
    pub device: u8,
    // how many programs a page may have
    pub limit: u8,
}

// Blocks that may be programmed and erased; both ends are in the range.
#[derive(Clone, Copy)]
pub struct OpenRange {
    pub first: u32,
    pub last: u32,
}

#[derive(Drop)]
pub struct Control {
    pub state: State,
    pub register: PageRegister,
    pub pointer: Pointer,
    // the write protect pin is high
    pub wp: bool,
    // the last operation failed, or was refused
    pub fail: bool,
    // the lock is tight
    pub tight: bool,
    // At most one open range: an `Option` of its ends is a rule of the project. With `tight` in one enum with
    // it, the law that a tight lock is closed could not be said.
    pub range: Option<OpenRange>,
}

impl Opening {
    // Whether part and limit fit an array of so many columns and blocks, with so many cells a word.
    pub fn fits(self, columns: usize, blocks: usize, cells: usize) -> bool
        ensures { result ≡ fits self columns blocks cells }
    {
        columns == usize::from(self.part.columns())
            && cells == usize::from(self.part.cells())
            // `as`, since std has no From of u32 for usize
            && (1..=self.part.most_blocks() as usize).contains(&blocks)
            && (1..16).contains(&self.limit)
    }
}

impl OpenRange {
    pub fn holds(self, block: u32) -> bool
        ensures { result ≡ in_range self block }
    {
        (self.first..=self.last).contains(&block)
    }
}

impl Control {
    // The control of a chip that is opened.
    pub fn fresh(erased: u16) -> Control
        ensures { result ≡ fresh erased }
    {
        Control {
            state: State::Column(Purpose::Read),
            register: PageRegister::erased(erased),
            pointer: Pointer::A,
            wp: true,
            fail: false,
            tight: false,
            range: None,
        }
    }

    // The status byte.
    pub fn status(&self) -> u16
        ensures { result ≡ status_of self.now }
    {
        let ready = !self.state.is_busy();
        u16::from(self.fail) + 64 * u16::from(ready) + 128 * u16::from(self.wp)
    }

    // Whether the lock lets a block be programmed and erased.
    pub fn is_open(&self, part: Part, block: u32) -> bool
        ensures { result ≡ is_open part self.now block }
    {
        !part.locks() || self.range.is_some_and(|range| range.holds(block))
    }

    // Whether the write protect pin or the lock keeps a row's block as it is.
    pub fn is_protected(&self, part: Part, row: u32) -> bool
        ensures { result ≡ is_protected part self.now row }
    {
        !self.wp || !self.is_open(part, row / 32)
    }

    // 4 for an open block, 1 for a tight lock, else 2.
    pub fn lock_code(&self, part: Part, block: u32) -> u16
        ensures { result ≡ lock_code part self.now block }
    {
        if self.is_open(part, block) {
            4
        } else if self.tight {
            1
        } else {
            2
        }
    }
}
