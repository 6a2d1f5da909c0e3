// Runs a trace from the standard input on a new K9K1208 of two blocks, and prints the result bytes.
#![tactic(auto)]

ghost use Rattle.std.specs.Prelude.{◌≡◌, ◌≤◌, length, take};
ghost use Rattle.chiptrace.specs.Traced.{Traced};

use rules::control::Opening;
use rules::part::Part;
use runner::job::run_on_memory;
use std::io;
use std::io::{Read, Write};

// the bytes of the input that are looked at
const MOST_TRACE: u64 = 4096;
// two blocks of 32 rows of 528 columns, and a count for each row
const WORDS: usize = 33792;

const COUNTS: usize = 64;

const RESULTS: usize = 8192;

const OPENING: Opening = Opening {
    part: Part::K9K1208,
    device: 0x76,
    limit: 3,
};

// Runs the trace on a new chip in this memory; how many result bytes there are. The four come one by one, as `run_on_memory` takes them.
fn run_trace(words: &mut [u8], counts: &mut [u8], trace: &[u8], results: &mut [u8]) -> usize
    requires words_len { length words.old ≡ 33792 }
    requires counts_len { length counts.old ≡ 64 }
    requires results_len { length results.old ≡ 8192 }
    ensures bound { result ≤ length results.new }
    ensures traced { Traced trace.now (take result results.new) }
{
    let (_, written) = run_on_memory(OPENING, words, counts, trace, results);
    written
}

fn main(rt: HostRuntime) -> io::Result<()> {
    let heap = rt.alloc();
    let mut trace = Vec::new(heap);
    rt.stdin().take(MOST_TRACE).read_to_end(&mut trace)?;
    let mut words = vec![in heap; 0u8; WORDS]?;
    let mut counts = vec![in heap; 0u8; COUNTS]?;
    let mut results = vec![in heap; 0u8; RESULTS]?;
    let written = run_trace(&mut words, &mut counts, &trace, &mut results);
    rt.stdout().write_all(&results[..written])
}
