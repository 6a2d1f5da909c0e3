// One call on a chip.
#[derive(Clone, Copy, PartialEq, Eq, Debug)]
pub enum Call {
    // a command cycle
    Command(u8),
    // an address cycle
    Address(u8),
    // a data cycle in: the code of a word
    Write(u16),
    // a data cycle out
    Read,
    // the level of the write protect pin: 0 low, 1 high; a number, as the trace has it (a rule of the
    // project): the chip refuses 2 and above
    Protect(u8),
    // wait until the operation under way has ended
    Settle,
    // show a code of the array
    Look { row: u32, column: u16 },
}
