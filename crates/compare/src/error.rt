// Why two chips were not compared. Neither chip was touched then.
ghost use Rattle.std.specs.Prelude.{◌≡◌, ℕ, IfSome};
ghost use Rattle.refusals.specs.Numbers.{number};
ghost use Rattle.compare.specs.declared.error.CompareError.TheVariants.{NoMemory};
ghost use Rattle.compare.specs.Errors.{refusal_told};

use records::error::TraceError;
use refusals::Refusal;
use std::alloc::AllocError;
use std::error::Error;
use std::fmt;

// Which of two.
#[derive(Clone, Copy, PartialEq, Eq, Debug)]
pub enum Side {
    One,
    Other,
}

#[derive(Clone, Copy, PartialEq, Eq, Debug)]
pub enum CompareError {
    // no memory for the answers
    NoMemory,
    // the first array has more than 4,294,967,295 blocks
    TooLarge,
    // a trace was not read
    NotRead { side: Side, error: TraceError },
}

impl CompareError {
    // The refusal that a trace is answered with that is not accepted.
    pub fn refusal(self) -> Option<Refusal>
        ensures value { result ≡ refusal_told self }
        ensures number { IfSome result (λ refusal. number refusal ≡ 14) }
    {
        match self {
            CompareError::NoMemory | CompareError::TooLarge => None,
            CompareError::NotRead { error, .. } => error.refusal(),
        }
    }
}

impl fmt::Display for CompareError {
    ghost use Rattle.std.specs.Prelude.{Some};
    ghost use Rattle.compare.specs.Texts.{error_text};

    ghost output = { λ error. Some (error_text error) };

    fn fmt<W: fmt::Write>(&self, f: &mut fmt::Formatter<W>) -> fmt::Result {
        match self {
            CompareError::NoMemory => f.write_str("no memory for the answers"),
            CompareError::TooLarge => f.write_str("the array is too large"),
            CompareError::NotRead { error, .. } => write!(f, "{error}"),
        }
    }
}

impl Error for CompareError {}

impl From<AllocError> for CompareError {
    ghost from_gives = { λ _ error. error ≡ NoMemory };

    fn from(_error: AllocError) -> Self {
        Self::NoMemory
    }
}
