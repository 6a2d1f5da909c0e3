// Lists of calls, written into more or less room and read back.
use crate::reads::read_case;
use records::call::Call;
use records::writer::write_trace;
use std::io;

// Writes the calls into the bytes, which hold EE before; prints how much was written, all the bytes,
// and what the written ones read as.
fn write_case(rt: &HostRuntime, calls: &[Call], out: &mut [u8]) -> io::Result<()> {
    out.fill(0xee);
    let (count, size) = write_trace(calls, out);
    print!(rt; "{count} calls, {size} bytes:")?;
    for byte in out.iter() {
        print!(rt; " {byte:02X}")?;
    }
    println!(rt; "")?;
    match out.get(0..size) {
        Some(written) => read_case(rt, written),
        None => println!(rt; "more bytes than there are"),
    }
}

pub fn rooms(rt: &HostRuntime) -> io::Result<()> {
    let calls = [Call::Read, Call::Write(0x1234), Call::Settle];
    // over the numbers themselves: there is no list of rooms
    for room in 0..=9 {
        let mut bytes = [0u8; 9];
        write_case(rt, &calls, &mut bytes[0..room])?;
    }
    Ok(())
}

pub fn rows(rt: &HostRuntime) -> io::Result<()> {
    for row in [0, 0x12_3456, 0xff_ffff, 0x100_0000] {
        let mut bytes = [0u8; 12];
        let calls = [
            Call::Settle,
            Call::Look {
                row,
                column: 0xabcd,
            },
            Call::Read,
        ];
        write_case(rt, &calls, &mut bytes)?;
    }
    Ok(())
}

pub fn worked_example(rt: &HostRuntime) -> io::Result<()> {
    let calls = [
        Call::Protect(1),
        Call::Command(0x80),
        Call::Address(3),
        Call::Address(12),
        Call::Address(0),
        Call::Write(15),
        Call::Command(0x10),
        Call::Settle,
        Call::Read,
        Call::Look { row: 12, column: 3 },
    ];
    let mut bytes = [0u8; 36];
    write_case(rt, &calls, &mut bytes)
}
