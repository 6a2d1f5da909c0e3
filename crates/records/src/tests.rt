// A few examples, run; the program `tracecases` has many more.
use crate::call::Call;
use crate::error::TraceError;
use crate::reader::read_trace;
use crate::writer::write_trace;
use refusals::Refusal;
use std::test::Fail;

#[test]
fn a_code_comes_low_byte_first(rt: HostRuntime) -> Result<(), Fail> {
    let calls = read_trace(rt.alloc(), b"DI\x34\x12ST")?;
    assert!(rt; calls.len() == 2);
    assert!(rt; calls[0] == Call::Write(0x1234));
    assert!(rt; calls[1] == Call::Settle);
    Ok(())
}

#[test]
fn a_bad_record_is_refused_with_its_place(rt: HostRuntime) -> Result<(), Fail> {
    match read_trace(rt.alloc(), b"STDI\x34") {
        Ok(_) => Err(Fail::new("a short record was taken")),
        Err(error) => {
            assert!(rt; error == TraceError::BadRecord { whole: 2 });
            assert!(rt; error.refusal() == Some(Refusal::BadRecord));
            Ok(())
        }
    }
}

#[test]
fn the_writer_stops_before_what_does_not_fit(rt: HostRuntime) {
    let mut out = [7u8; 5];
    let (calls, bytes) = write_trace(&[Call::Read, Call::Write(1), Call::Settle], &mut out);
    assert!(rt; calls == 1 && bytes == 2);
    assert!(rt; out == [b'D', b'O', 7, 7, 7]);
}
