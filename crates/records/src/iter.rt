// The records of a trace, one after another.
ghost use Rattle.std.specs.Prelude.{ℕ, ◌≤◌, length};
ghost use Rattle.std.specs.Iterator.{at_most};

use crate::call::Call;
use crate::error::TraceError;
use crate::reader::first_record;

// What is left of a trace. It gives each call with the offset of its record; a bad record is an
// error, and the last that it gives.
#[derive(Drop)]
pub struct Records<'a> {
    pub trace: &'a [u8],
    pub rest: &'a [u8],
    pub ghost within: { length rest.now ≤ length trace.now },
}

impl<'a> Records<'a> {
    ghost use Rattle.std.specs.Prelude.{◌≡◌};

    pub fn new(trace: &'a [u8]) -> Self
        ensures whole { result.trace.now ≡ trace.now }
        ensures left { result.rest.now ≡ trace.now }
    {
        Records { trace, rest: trace }
    }
}

impl Iterator for Records<'_> {
    ghost use Rattle.records.specs.Sequence.{Steps};

    type Item = Result<(usize, Call), TraceError>;

    ghost next_gives = { Steps };

    ghost remaining = { λ s. at_most (length s.rest.now) };

    fn next(&mut self) -> Option<Result<(usize, Call), TraceError>> {
        if self.rest.is_empty() {
            return None;
        }
        let whole = self.trace.len() - self.rest.len();
        match first_record(self.rest) {
            Some((call, next)) => {
                self.rest = next;
                Some(Ok((whole, call)))
            }
            None => {
                self.rest = &[];
                Some(Err(TraceError::BadRecord { whole }))
            }
        }
    }
}
