// Whether a trace is accepted, and where and why not.
ghost use Rattle.std.specs.Prelude.{◌≡◌, ℕ, Some};
ghost use Rattle.records.specs.Readings.{reading};
ghost use Rattle.tracetext.specs.Verdicts.{Judged, accepted_text, refused_text};

use records::error::TraceError;
use records::flaws::{Flaw, cause_of};
use records::reader::read_trace;
use refusals::Refusal;
use std::alloc::Global;
use std::error::Error;
use std::fmt;

// A trace that is accepted: how many records it has, in how many bytes.
#[derive(Clone, Copy)]
pub struct Accepted {
    pub records: usize,
    pub bytes: usize,
}

#[derive(Clone, Copy, Debug)]
pub enum NotAccepted {
    // after so many bytes of whole records comes a bad one
    BadRecord { whole: usize, flaw: Flaw },
    // there was no memory for the calls, so that nothing is said of the trace
    NoMemory { whole: usize },
}

// The verdict on a trace, unless there is no memory for its calls.
pub fn judge(heap: Global, trace: &[u8]) -> Result<Accepted, NotAccepted>
    ensures { Judged trace.now result }
{
    match read_trace(heap, trace) {
        Ok(calls) => {
            let records = calls.len();
            let bytes = trace.len();
            Ok(Accepted { records, bytes })
        }
        // as `tracecases` asks, too: a library for these two lines is no plainer
        Err(TraceError::BadRecord { whole }) => {
            let flaw = cause_of(&trace[whole..]);
            Err(NotAccepted::BadRecord { whole, flaw })
        }
        Err(TraceError::NoMemory { whole }) => Err(NotAccepted::NoMemory { whole }),
    }
}

impl fmt::Display for Accepted {
    ghost output = { λ accepted. Some (accepted_text accepted) };

    fn fmt<W: fmt::Write>(&self, f: &mut fmt::Formatter<W>) -> fmt::Result {
        let records = self.records;
        let bytes = self.bytes;
        write!(f, "accepted: {records} records in {bytes} bytes")
    }
}

impl fmt::Display for NotAccepted {
    ghost output = { λ refused. Some (refused_text refused) };

    fn fmt<W: fmt::Write>(&self, f: &mut fmt::Formatter<W>) -> fmt::Result {
        match *self {
            NotAccepted::BadRecord { whole, flaw } => {
                let number = Refusal::BadRecord.number();
                write!(
                    f,
                    "not accepted: at byte {whole}, {flaw} (refusal {number})"
                )
            }
            NotAccepted::NoMemory { .. } => f.write_str("no memory"),
        }
    }
}

impl Error for NotAccepted {}
