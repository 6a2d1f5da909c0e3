// What a chip is in the middle of.
ghost use Rattle.std.specs.Prelude.{◌≡◌};
ghost use Rattle.rules.specs.Controls.{is_busy};

// An operation that has started.
#[derive(Clone, Copy)]
pub enum Work {
    // the register into the row; a copy-back closes the page
    // whether it closes is a fact of its own: no value stands beside it
    Program { row: u32, closes: bool },
    Erase { block: u32 },
}

// What a column cycle is for.
#[derive(Clone, Copy)]
pub enum Purpose {
    Read,
    Load,
    // the row that was read out
    CopyBack { from: u32 },
}

// What row cycles are for.
#[derive(Clone, Copy)]
pub enum Aim {
    // a read that goes on from a column
    Read { column: u16 },
    // a load that goes on from a column
    Load { column: u16 },
    Erase,
    // the row that was read out
    CopyBack { from: u32 },
    // the first block of a range
    UnlockFirst,
    // the last block of a range, with its first block
    UnlockLast { first: u32 },
    LockStatus,
}

#[derive(Clone, Copy)]
pub enum State {
    // a column cycle is next
    Column(Purpose),
    // a row cycle is next: how many were taken, and the row that they come to. `taken` counts, as a
    // column does: the rules say `taken + 1`, and names for the numbers would be no plainer
    Row { aim: Aim, taken: u8, row: u32 },
    // a page is read out: its row, and the column that is read next
    PageOut { row: u32, next: u16 },
    // a page is loaded: its row, the column that is written next, and whether a word was written, a fact of
    // its own beside which no value stands
    Load { row: u32, next: u16, written: bool },
    // the row of an erase is known
    EraseReady { row: u32 },
    // the first block of a range is known
    UnlockReady { first: u32 },
    // read gives the status
    Status,
    // the address cycle of 90h is next
    IdAddress,
    // read gives the maker's and the device code: which is next. It counts, as a column does: names
    // for three numbers and their successors would be no plainer
    Id { next: u8 },
    // read gives the lock code of a block
    LockCode { block: u32 },
    Busy(Work),
}

impl State {
    pub fn is_busy(self) -> bool
        ensures { result ≡ is_busy self }
    {
        matches!(self, State::Busy(_))
    }
}
