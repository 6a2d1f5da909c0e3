// Why a trace was not read.
ghost use Rattle.std.specs.Prelude.{◌≡◌, ℕ, IfSome, Some};
ghost use Rattle.refusals.specs.Numbers.{number};
ghost use Rattle.records.specs.Refused.{refusal_of, error_text};

use refusals::Refusal;
use std::error::Error;
use std::fmt;

#[derive(Clone, Copy, PartialEq, Eq, Debug)]
pub enum TraceError {
    // the trace is not accepted: after so many bytes of whole records comes a bad one
    BadRecord { whole: usize },
    // after so many bytes of whole records there was no memory for the next call
    NoMemory { whole: usize },
}

impl TraceError {
    // The refusal that a bad record is answered with. Want of memory says nothing of the trace.
    pub fn refusal(self) -> Option<Refusal>
        ensures value { result ≡ refusal_of self }
        ensures number { IfSome result (λ refusal. number refusal ≡ 14) }
    {
        match self {
            TraceError::BadRecord { .. } => Some(Refusal::BadRecord),
            TraceError::NoMemory { .. } => None,
        }
    }
}

impl fmt::Display for TraceError {
    ghost output = { λ error. Some (error_text error) };

    fn fmt<W: fmt::Write>(&self, f: &mut fmt::Formatter<W>) -> fmt::Result {
        match *self {
            TraceError::BadRecord { whole } => {
                let number = Refusal::BadRecord.number();
                write!(f, "refused with {number}, a bad record after {whole} bytes")
            }
            TraceError::NoMemory { whole } => {
                write!(f, "no memory for the calls after {whole} bytes")
            }
        }
    }
}

impl Error for TraceError {}
