// The byte: eight cells of one bit each.
ghost use Rattle.std.specs.Prelude.{◌≡◌, ℕ, ◌%◌};
ghost use Rattle.std.proofs.Common.{lit≤};
ghost use Rattle.words.specs.Kinds.{byte_kind};
ghost use Rattle.words.specs.BinaryLaws.{binary_laws, cut_lawful};

use crate::word::Word;
use refusals::Refusal;

// An impl for each of the two numbers: one for both, over a trait of numbers whose bits are the cells, was tried and proves, but each number
// still writes five of these bodies for that trait, and it is longer.
impl Word for u8 {
    ghost kind = { byte_kind };

    ghost laws = { binary_laws 8 (lit≤ tt) };

    // the cut says nothing of a byte, and makes the code lawful at every number
    ghost code = { λ x. x % 256 };

    ghost stored = { λ x. cut_lawful 8 x };

    fn to_code(self) -> u16 {
        u16::from(self)
    }

    fn from_code(c: u16) -> Result<u8, Refusal> {
        u8::try_from(c).map_err(|_| Refusal::Unlawful)
    }

    fn join(self, other: u8) -> u8 {
        self & other
    }

    fn erased() -> u8 {
        0xFF
    }

    fn torn(self) -> u8 {
        self
    }

    fn torn_code(c: u16) -> u16 {
        c
    }

    fn torn_erase() -> u8 {
        Self::erased()
    }

    fn cells() -> u8 {
        // `as`, since the proof shows that nothing is lost
        u8::BITS as u8
    }
}
