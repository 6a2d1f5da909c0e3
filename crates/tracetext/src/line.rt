// One line for one record.
ghost use Rattle.std.specs.Prelude.{Some};
ghost use Rattle.tracetext.specs.Verdicts.{line_text};

use records::call::Call;
use std::fmt;

// A call, and the offset of the first byte of its record.
#[derive(Clone, Copy)]
pub struct Line {
    pub offset: usize,
    pub call: Call,
}

impl fmt::Display for Line {
    ghost output = { λ line. Some (line_text line) };

    fn fmt<W: fmt::Write>(&self, f: &mut fmt::Formatter<W>) -> fmt::Result {
        let offset = self.offset;
        let call = self.call;
        write!(f, "{offset}: {call}")
    }
}
