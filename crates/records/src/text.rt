// A call as text for people.
ghost use Rattle.std.specs.Prelude.{Some};
ghost use Rattle.records.specs.Texts.{text_of};

use crate::call::Call;
use std::fmt;

impl fmt::Display for Call {
    ghost output = { λ call. Some (text_of call) };

    #[tactic(auto, using(crate::proofs::Hex::byte_printed, crate::proofs::Hex::code_printed))]
    fn fmt<W: fmt::Write>(&self, f: &mut fmt::Formatter<W>) -> fmt::Result {
        match *self {
            Call::Command(byte) => write!(f, "CM {byte:02X}"),
            Call::Address(byte) => write!(f, "AD {byte:02X}"),
            Call::Write(code) => write!(f, "DI {code:04X}"),
            Call::Read => f.write_str("DO"),
            Call::Protect(level) => write!(f, "WP {level:02X}"),
            Call::Settle => f.write_str("ST"),
            Call::Look { row, column } => write!(f, "LK row {row} column {column}"),
        }
    }
}
