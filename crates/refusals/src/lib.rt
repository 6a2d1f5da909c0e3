// Why a call was refused: one enum for the whole project, which gives each refusal its number.
#![tactic(auto)]

ghost use Rattle.std.specs.Prelude.{◌≡◌, ℕ, ◌≤◌, Some};
ghost use Rattle.refusals.specs.Numbers.{number};
ghost use Rattle.refusals.specs.Texts.{refusal_text};

use std::error::Error;
use std::fmt;

#[derive(Clone, Copy, PartialEq, Eq, Debug)]
pub enum Refusal {
    // the chip is dead: its part, limit and array do not fit together
    Dead = 1,
    // a code that the word kind does not have, or a pin level that is not 0 or 1
    Unlawful = 2,
    // the chip is busy, and does not know the call then
    Busy = 3,
    // an unknown command, or a cycle with no meaning in this state
    Unknown = 4,
    // settle while nothing is under way
    NotBusy = 5,
    // a row or a block outside the array
    Outside = 6,
    // no column is left, or the column lies outside
    NoColumn = 7,
    // a program was to start with no word written
    NoWord = 8,
    // the lock is tight, or a range of blocks ends before it starts
    Locked = 9,
    // write protect is low, or the block is not open
    Protected = 10,
    // the page has had as many programs as it may
    PageFull = 11,
    // a copy-back between blocks of different planes
    OtherPlane = 12,
    // the array failed
    ArrayFailed = 13,
    // a trace has an unknown mark or a short record
    BadRecord = 14,
    // the list of defective blocks is full
    ListFull = 15,
}

impl Refusal {
    // The number of the refusal; each has its own, from 1 to 15.
    pub fn number(self) -> u8
        ensures value { result ≡ number self }
        ensures low { 1 ≤ result }
        ensures high { result ≤ 15 }
        ensures own { (other : Refusal) → number other ≡ result → other ≡ self }
    {
        // `as`: the number of a variant
        self as u8
    }
}

// The impl is written out because a derived one states no output, and no clause could then say what is printed.
impl fmt::Display for Refusal {
    ghost output = { λ refusal. Some (refusal_text refusal) };

    fn fmt<W: fmt::Write>(&self, f: &mut fmt::Formatter<W>) -> fmt::Result {
        match self {
            Refusal::Dead => f.write_str("the chip is dead"),
            Refusal::Unlawful => f.write_str(
                "the code is not lawful, or the pin level is not 0 or 1",
            ),
            Refusal::Busy => f.write_str("the chip is busy"),
            Refusal::Unknown => f.write_str("unknown command, or a cycle with no meaning here"),
            Refusal::NotBusy => f.write_str("nothing to settle"),
            Refusal::Outside => f.write_str("outside the array"),
            Refusal::NoColumn => f.write_str("no such column"),
            Refusal::NoWord => f.write_str("no word was written"),
            Refusal::Locked => f.write_str("the lock is tight, or the range ends before it starts"),
            Refusal::Protected => f.write_str("write protect is low, or the block is locked"),
            Refusal::PageFull => f.write_str("the page has had all its programs"),
            Refusal::OtherPlane => f.write_str("the blocks lie in different planes"),
            Refusal::ArrayFailed => f.write_str("the array failed"),
            Refusal::BadRecord => f.write_str("unknown mark or short record"),
            Refusal::ListFull => f.write_str("the defect list is full"),
        }
    }
}

impl Error for Refusal {}
