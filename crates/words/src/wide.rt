// The 16-bit word: sixteen cells of one bit each.
ghost use Rattle.std.specs.Prelude.{◌≡◌, ℕ, ◌%◌};
ghost use Rattle.std.proofs.Common.{lit≤};
ghost use Rattle.words.specs.Kinds.{word16_kind};
ghost use Rattle.words.specs.BinaryLaws.{binary_laws, cut_lawful};

use crate::word::Word;
use refusals::Refusal;

// Its own impl, as byte.rt says.
impl Word for u16 {
    ghost kind = { word16_kind };

    ghost laws = { binary_laws 16 (lit≤ tt) };

    // the cut says nothing of a 16-bit number, and makes the code lawful at every number
    ghost code = { λ x. x % 65536 };

    ghost stored = { λ x. cut_lawful 16 x };

    fn to_code(self) -> u16 {
        self
    }

    fn from_code(c: u16) -> Result<u16, Refusal> {
        Ok(c)
    }

    fn join(self, other: u16) -> u16 {
        self & other
    }

    fn erased() -> u16 {
        0xFFFF
    }

    fn torn(self) -> u16 {
        self
    }

    fn torn_code(c: u16) -> u16 {
        c
    }

    fn torn_erase() -> u16 {
        Self::erased()
    }

    fn cells() -> u8 {
        // `as`, since the proof shows that nothing is lost
        u16::BITS as u8
    }
}
