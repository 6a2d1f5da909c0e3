// The result of a record: four bytes at a place of the results.
ghost use Rattle.std.specs.Prelude.{◌≡◌, ℕ, ◌+◌, ◌≤◌, ◌++◌, length, take, drop};
ghost use Rattle.runner.specs.Results.{result_bytes};

use refusals::Refusal;

// `ok` and the value, low byte first; or `no`, the number of the refusal, 0.
pub fn bytes_of(answer: Result<u16, Refusal>) -> [u8; 4]
    ensures { result ≡ result_bytes answer }
{
    match answer {
        Ok(value) => {
            let [low, high] = value.to_le_bytes();
            [b'o', b'k', low, high]
        }
        Err(refusal) => [b'n', b'o', refusal.number(), 0],
    }
}

// Tells an answer in the caller's buffer, after so many bytes that are written; how many are written then.
pub(crate) fn tell(results: &mut [u8], written: usize, answer: Result<u16, Refusal>) -> usize
    requires { written + 4 ≤ length results.old }
    ensures count { result ≡ written + 4 }
    ensures told { results.new ≡ take written results.old ++ (result_bytes answer ++ drop (written + 4) results.old) }
{
    results[written..written + 4].copy_from_slice(&bytes_of(answer));
    written + 4
}
