// Why a trace is not accepted.
ghost use Rattle.std.specs.Prelude.{◌≡◌, ℕ, Some};
ghost use Rattle.records.specs.Flaws.{is_mark, cause, flaw_text};

use std::fmt;

#[derive(Clone, Copy, PartialEq, Eq, Debug)]
pub enum Flaw {
    // two bytes that are no mark
    UnknownMark,
    // the trace ends within a record
    Short,
}

impl fmt::Display for Flaw {
    ghost output = { λ flaw. Some (flaw_text flaw) };

    fn fmt<W: fmt::Write>(&self, f: &mut fmt::Formatter<W>) -> fmt::Result {
        match *self {
            Flaw::UnknownMark => f.write_str("unknown mark"),
            Flaw::Short => f.write_str("short record"),
        }
    }
}

// Whether two bytes are one of the seven marks.
fn is_known(first: u8, second: u8) -> bool
    ensures { result ≡ is_mark first second }
{
    matches!(
        (first, second),
        (b'C', b'M')
            | (b'A', b'D')
            | (b'D', b'I')
            | (b'D', b'O')
            | (b'W', b'P')
            | (b'S', b'T')
            | (b'L', b'K')
    )
}

// Why no record begins these bytes: asked where a trace is bad. It reads bytes, and converts no value.
pub fn cause_of(trace: &[u8]) -> Flaw
    ensures { result ≡ cause trace.now }
{
    match trace {
        [first, second, ..] => {
            if is_known(*first, *second) {
                Flaw::Short
            } else {
                Flaw::UnknownMark
            }
        }
        _ => Flaw::Short,
    }
}
