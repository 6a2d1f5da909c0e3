// Reading records and whole traces.
ghost use Rattle.std.specs.Prelude.{◌≡◌, ℕ, ◌<◌, true, List, length, IfSome, IfOk, IfErr, Ok};
ghost use Rattle.std.specs.Option.{option_map};
ghost use Rattle.records.specs.Matches.{Matched};
ghost use Rattle.records.specs.Readings.{Reading, Refuses, all_writable, reading};
ghost use Rattle.records.specs.Records.{first, Begins};

use crate::call::Call;
use crate::error::TraceError;
use crate::iter::Records;
use std::alloc::Global;

// Apart from `first_record`, which promises more of it: the second promise follows from the first.
// Matches a mark, its payload and the rest of the trace.
fn match_record(trace: &[u8]) -> Option<(Call, &[u8])>
    ensures { Matched trace.now (option_map (λ p. (p.0, p.1.now)) result) }
{
    match trace {
        [b'C', b'M', byte, rest @ ..] => Some((Call::Command(*byte), rest)),
        [b'A', b'D', byte, rest @ ..] => Some((Call::Address(*byte), rest)),
        [b'D', b'I', low, high, rest @ ..] => {
            Some((Call::Write(u16::from_le_bytes([*low, *high])), rest))
        }
        [b'D', b'O', rest @ ..] => Some((Call::Read, rest)),
        [b'W', b'P', level, rest @ ..] => Some((Call::Protect(*level), rest)),
        [b'S', b'T', rest @ ..] => Some((Call::Settle, rest)),
        [b'L', b'K', r0, r1, r2, c0, c1, rest @ ..] => {
            let row = u32::from_le_bytes([*r0, *r1, *r2, 0]);
            let column = u16::from_le_bytes([*c0, *c1]);
            Some((Call::Look { row, column }, rest))
        }
        _ => None,
    }
}

// The call of the first record and the rest of the trace, or none where its mark is unknown or it
// is short. At the end of the trace, too, there is none.
pub fn first_record(trace: &[u8]) -> Option<(Call, &[u8])>
    ensures value { option_map (λ p. (p.0, p.1.now)) result ≡ first trace.now }
    ensures shorter { IfSome result (λ p. length p.1.now < length trace.now) }
    ensures begins { IfSome result (λ p. Begins trace.now p.0 p.1.now) }
{
    match_record(trace)
}

// The calls of a whole trace. It is accepted exactly when it is a list of records with no byte left
// over, and then it has this one reading. Want of memory is told apart from a bad record.
pub fn read_trace(heap: Global, trace: &[u8]) -> Result<Vec<Call>, TraceError>
    ensures value { IfOk result (λ v. reading trace.now ≡ Ok v.items) }
    ensures accepted { IfOk result (λ v. Reading trace.now v.items) }
    ensures narrow { IfOk result (λ v. all_writable v.items ≡ true) }
    ensures refused { IfErr result (λ e. Refuses trace.now e) }
    ensures one { (calls others : List Call) → Reading trace.now calls → Reading trace.now others → calls ≡ others }
{
    let mut calls = Vec::new(heap);
    for record in Records::new(trace) {
        let (whole, call) = record?;
        calls
            .push(call)
            .map_err(|_| TraceError::NoMemory { whole })?;
    }
    Ok(calls)
}
