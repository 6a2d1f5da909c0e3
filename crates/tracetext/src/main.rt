// Prints a trace from standard input, one record a line, and the verdict on it.
#![tactic(auto)]

mod line;
mod verdict;

use line::Line;
use records::iter::Records;
use std::io;
use std::io::Read;
use verdict::judge;

// Prints the whole records, up to the end of the trace or to a bad record.
fn print_records(rt: &impl Print, trace: &[u8]) -> io::Result<()> {
    for (offset, call) in Records::new(trace).map_while(|record| record.ok()) {
        rt.println(Line { offset, call })?;
    }
    Ok(())
}

fn main(rt: HostRuntime) -> io::Result<()> {
    let mut trace = Vec::new(rt.alloc());
    rt.stdin().read_to_end(&mut trace)?;
    print_records(&rt, &trace)?;
    match judge(rt.alloc(), &trace) {
        Ok(accepted) => rt.println(accepted),
        Err(refused) => rt.println(refused),
    }
}
