// Traces that are accepted, and traces that are not.
use records::error::TraceError;
use records::flaws::cause_of;
use records::reader::read_trace;
use std::io;

// Prints the calls of a trace, or where and why it is bad.
pub fn read_case(rt: &HostRuntime, trace: &[u8]) -> io::Result<()> {
    let size = trace.len();
    print!(rt; "{size} bytes:")?;
    match read_trace(rt.alloc(), trace) {
        Ok(calls) => {
            for call in &calls {
                print!(rt; " {call};")?;
            }
            println!(rt; " accepted")
        }
        Err(TraceError::BadRecord { whole }) => {
            let flaw = cause_of(&trace[whole..]);
            println!(rt; " {flaw} at {whole}")
        }
        Err(TraceError::NoMemory { whole }) => println!(rt; " no memory at {whole}"),
    }
}

pub fn whole_records(rt: &HostRuntime) -> io::Result<()> {
    read_case(rt, b"")?;
    read_case(rt, b"CM\xff")?;
    read_case(rt, b"AD\x00")?;
    read_case(rt, b"DI\x34\x12")?;
    read_case(rt, b"DO")?;
    read_case(rt, b"WP\x07")?;
    read_case(rt, b"ST")?;
    read_case(rt, b"LK\x01\x02\x03\x04\x05")?;
    read_case(rt, b"DODODO")?;
    read_case(rt, b"DIDOSTDO")
}

pub fn bad_records(rt: &HostRuntime) -> io::Result<()> {
    read_case(rt, b"D")?;
    read_case(rt, b"CM")?;
    read_case(rt, b"AD")?;
    read_case(rt, b"DI\x34")?;
    read_case(rt, b"WP")?;
    read_case(rt, b"LK\x01\x02\x03\x04")?;
    read_case(rt, b"cm\x80")?;
    read_case(rt, b"DX")?;
    read_case(rt, b"OD")?;
    read_case(rt, b"\x00\x00")?;
    read_case(rt, b"STDOS")?;
    read_case(rt, b"CM\x80ad\x00DO")
}

// The worked example of the documents with a stray byte, and with an unknown mark in its midst.
pub fn broken_example(rt: &HostRuntime) -> io::Result<()> {
    read_case(
        rt,
        b"WP\x01CM\x80AD\x03AD\x0cAD\x00DI\x0f\x00CM\x10STDOLK\x0c\x00\x00\x03\x00D",
    )?;
    read_case(
        rt,
        b"WP\x01CM\x80AD\x03AD\x0cAD\x00DI\x0f\x00CM\x10STDXLK\x0c\x00\x00\x03\x00",
    )
}
