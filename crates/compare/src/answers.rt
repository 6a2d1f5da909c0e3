// Answers of calls: whether two lists of them are equal, and how many calls were taken.
ghost use Rattle.std.specs.Prelude.{◌≡◌, ℕ, ◌+◌, Decides, length};
ghost use Rattle.compare.specs.Played.{count_taken, count_refused};
ghost use Rattle.compare.specs.FirstRefusals.{FirstRefusalIn};

use refusals::Refusal;
use std::fmt;

// How many calls were taken, and how many refused.
#[derive(Clone, Copy, PartialEq, Eq, Debug)]
pub struct Tally {
    pub taken: usize,
    pub refused: usize,
}

impl fmt::Display for Tally {
    ghost use Rattle.std.specs.Prelude.{Some};
    ghost use Rattle.compare.specs.Texts.{tally_text};

    ghost output = { λ tally. Some (tally_text tally) };

    fn fmt<W: fmt::Write>(&self, f: &mut fmt::Formatter<W>) -> fmt::Result {
        let taken = self.taken;
        let refused = self.refused;
        write!(f, "{taken} calls taken, {refused} refused")
    }
}

// The first call that was refused, counted from 0, and why.
#[derive(Clone, Copy, PartialEq, Eq, Debug)]
pub struct FirstRefusal {
    pub call: usize,
    pub why: Refusal,
}

pub fn same_answer(one: Result<u16, Refusal>, other: Result<u16, Refusal>) -> bool
    ensures { Decides result (one ≡ other) }
{
    one == other
}

pub fn same_answers(
    answers: &[Result<u16, Refusal>],
    other_answers: &[Result<u16, Refusal>],
) -> bool
    ensures { Decides result (answers.now ≡ other_answers.now) }
{
    answers.len() == other_answers.len()
        && answers
            .iter()
            .zip(other_answers)
            .all(|(answer, other)| same_answer(*answer, *other))
}

// How many calls were taken; all others were refused.
fn taken_of(answers: &[Result<u16, Refusal>]) -> usize
    ensures taken { result ≡ count_taken answers.now }
    ensures others { result + count_refused answers.now ≡ length answers.now }
{
    answers
        .iter()
        .map(|answer| usize::from(answer.is_ok()))
        .sum()
}

pub fn count_answers(answers: &[Result<u16, Refusal>]) -> Tally
    ensures taken { result.taken ≡ count_taken answers.now }
    ensures refused { result.refused ≡ count_refused answers.now }
{
    let taken = taken_of(answers);
    Tally {
        taken,
        refused: answers.len() - taken,
    }
}

pub fn first_refusal(answers: &[Result<u16, Refusal>]) -> Option<FirstRefusal>
    ensures { FirstRefusalIn answers.now result }
{
    answers.iter().enumerate().find_map(|(call, answer)| answer
        .err()
        .map(|why| FirstRefusal { call, why }))
}
