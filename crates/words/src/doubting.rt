// The doubting byte: eight cells, each erased, doubtful or programmed.
ghost use Rattle.std.specs.Prelude.{◌≡◌, ℕ, ◌+◌, ◌*◌, ◌<◌, bit_and, bit_xor};
ghost use Rattle.words.specs.Kinds.{doubting_kind, joined_doubt, Doubted};
ghost use Rattle.words.specs.DoubtingLaws.{doubting_laws, made_lawful};

use crate::word::Word;
use refusals::Refusal;

// A byte of the erased cells and a byte of the doubtful ones; no cell is both.
#[derive(Clone, Copy)]
pub struct DoubtingByte {
    erased: u8,
    doubtful: u8,
    ghost low: { erased < 256 },
    ghost high: { doubtful < 256 },
    ghost apart: { bit_and erased doubtful ≡ 0 },
}

// The two bytes of a join, from the erased and the doubtful cells of each side: erased where both are, doubtful where both are at least that.
fn joined_bytes(b: u8, d: u8, p: u8, q: u8) -> (u8, u8)
    ensures erased { result.0 ≡ bit_and b p }
    ensures doubtful { result.1 ≡ joined_doubt b d p q }
{
    let erased = b & p;
    let at_least_doubtful = (b | d) & (p | q);
    (erased, at_least_doubtful ^ erased)
}

// The doubtful cells of a torn form: all that are not erased.
fn torn_doubt(b: u8) -> u8
    ensures { result ≡ bit_xor b 255 }
{
    b ^ 0xFF
}

impl Word for DoubtingByte {
    ghost kind = { doubting_kind };

    ghost laws = { doubting_laws };

    ghost code = { λ x. x.erased + 256 * x.doubtful };

    ghost stored = { λ x. made_lawful x.erased x.doubtful record { low = x.low; high = x.high; apart = x.apart } };

    fn to_code(self) -> u16 {
        u16::from_le_bytes([self.erased, self.doubtful])
    }

    fn from_code(c: u16) -> Result<DoubtingByte, Refusal> {
        let [erased, doubtful] = c.to_le_bytes();
        if erased & doubtful == 0 {
            Ok(DoubtingByte { erased, doubtful })
        } else {
            Err(Refusal::Unlawful)
        }
    }

    fn join(self, other: DoubtingByte) -> DoubtingByte {
        let (erased, doubtful) = joined_bytes(
            self.erased,
            self.doubtful,
            other.erased,
            other.doubtful,
        );
        DoubtingByte { erased, doubtful }
    }

    fn erased() -> DoubtingByte {
        DoubtingByte {
            erased: 0xFF,
            doubtful: 0,
        }
    }

    // Beside the trait's promise: level 0 becomes 1, the other levels stay.
    fn torn(self) -> DoubtingByte
        ensures value { result.erased + 256 * result.doubtful ≡ doubting_kind.torn (self.erased + 256 * self.doubtful) }
        ensures doubted { Doubted (self.erased + 256 * self.doubtful) (result.erased + 256 * result.doubtful) }
    {
        DoubtingByte {
            erased: self.erased,
            doubtful: torn_doubt(self.erased),
        }
    }

    fn torn_code(c: u16) -> u16 {
        let [erased, _] = c.to_le_bytes();
        u16::from_le_bytes([erased, torn_doubt(erased)])
    }

    fn torn_erase() -> DoubtingByte {
        DoubtingByte {
            erased: 0,
            doubtful: 0xFF,
        }
    }

    fn cells() -> u8 {
        8
    }
}
