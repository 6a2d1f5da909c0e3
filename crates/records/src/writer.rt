// Writing calls as records.
ghost use Rattle.std.specs.Prelude.{◌≡◌, ℕ, ◌+◌, ◌≤◌, true, List, ◌++◌, length, take, drop, Ok};
ghost use Rattle.records.specs.Records.{record_of, writable};
ghost use Rattle.records.specs.Readings.{Reading, joined, reading};
ghost use Rattle.records.specs.Writings.{size_of, size_in, how_many};

use crate::call::Call;

// How many bytes the record of a call has. A look at a row of 2^24 or more has no record.
pub fn record_size(call: Call) -> Option<usize>
    ensures { result ≡ size_of call }
{
    match call {
        Call::Command(_) | Call::Address(_) | Call::Protect(_) => Some(3),
        Call::Write(_) => Some(4),
        Call::Read | Call::Settle => Some(2),
        Call::Look { row, .. } => (row < 0x100_0000).then_some(7),
    }
}

// The size of the record of a call, if it has one and there is room for it.
fn room_for(call: Call, room: usize) -> Option<usize>
    ensures { result ≡ size_in call room }
{
    record_size(call).filter(|size| *size <= room)
}

// Puts the bytes into `out`, from `at` on.
fn put_bytes(out: &mut [u8], at: usize, bytes: &[u8])
    requires { at + length bytes.now ≤ length out.old }
    ensures { out.new ≡ take at out.old ++ (bytes.now ++ drop (at + length bytes.now) out.old) }
{
    let end = at + bytes.len();
    out[at..end].copy_from_slice(bytes);
}

// Puts the record of a call into `out`, from `at` on.
fn put_record(out: &mut [u8], at: usize, call: Call)
    requires narrow { writable call ≡ true }
    requires within { at + length (record_of call) ≤ length out.old }
    ensures { out.new ≡ take at out.old ++ (record_of call ++ drop (at + length (record_of call)) out.old) }
{
    match call {
        Call::Command(byte) => put_bytes(out, at, &[b'C', b'M', byte]),
        Call::Address(byte) => put_bytes(out, at, &[b'A', b'D', byte]),
        Call::Write(code) => {
            let [low, high] = code.to_le_bytes();
            put_bytes(out, at, &[b'D', b'I', low, high]);
        }
        Call::Read => put_bytes(out, at, b"DO"),
        Call::Protect(level) => put_bytes(out, at, &[b'W', b'P', level]),
        Call::Settle => put_bytes(out, at, b"ST"),
        Call::Look { row, column } => {
            let [r0, r1, r2, _] = row.to_le_bytes();
            let [c0, c1] = column.to_le_bytes();
            put_bytes(out, at, &[b'L', b'K', r0, r1, r2, c0, c1]);
        }
    }
}

// Writes the records of the calls into `out`, in order. It stops before the first call that has no
// record or whose record does not fit, and answers how many calls and how many bytes it wrote. Later
// bytes stay as they were. What it wrote reads back as the calls that it wrote, and as no others.
// The pair, and the caller's bytes with a count, are a rule of the project: nothing is allocated.
pub fn write_trace(calls: &[Call], out: &mut [u8]) -> (usize, usize)
    ensures count { result.0 ≡ how_many calls.now (length out.old) }
    ensures bytes { result.1 ≡ length (joined (take result.0 calls.now)) }
    ensures after { out.new ≡ joined (take result.0 calls.now) ++ drop result.1 out.old }
    ensures back { reading (take result.1 out.new) ≡ Ok (take result.0 calls.now) }
    ensures only { (others : List Call) → Reading (take result.1 out.new) others → others ≡ take result.0 calls.now }
{
    let mut written = 0;
    for (count, call) in calls.iter().enumerate() {
        let Some(size) = room_for(*call, out.len() - written) else {
            return (count, written);
        };
        put_record(out, written, *call);
        written += size;
    }
    (calls.len(), written)
}
