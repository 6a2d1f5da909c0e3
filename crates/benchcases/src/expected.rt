// A call with the answer that is expected of it, and the playing of such calls.
ghost use Rattle.std.specs.Prelude.{◌≡◌, true, Ok, Err};
ghost use Rattle.rules.specs.Running.{Step};
ghost use Rattle.chip.specs.Calls.{seen, event};

use anyhow::ensure;
use arrays::CellArray;
use chip::Chip;
use compare::answers::same_answer;
use records::call::Call;
use refusals::Refusal;
use std::io;

#[derive(Clone, Copy)]
pub struct Expected {
    pub call: Call,
    pub answer: Result<u16, Refusal>,
}

// The call is taken, and has nothing to tell.
pub fn taken(call: Call) -> Expected
    ensures { result ≡ record { call = call; answer = Ok 0 } }
{
    gives(call, 0)
}

pub fn gives(call: Call, value: u16) -> Expected
    ensures { result ≡ record { call = call; answer = Ok value } }
{
    Expected {
        call,
        answer: Ok(value),
    }
}

pub fn refuses(call: Call, refusal: Refusal) -> Expected
    ensures { result ≡ record { call = call; answer = Err refusal } }
{
    Expected {
        call,
        answer: Err(refusal),
    }
}

// Plays the call: whether the answer is the one expected. Then the step is one of the rules with that answer.
fn plays<A: CellArray>(chip: &mut Chip<A>, expected: Expected) -> bool
    ensures { result ≡ true → Step A.Stored.Word.kind chip.old.opening (seen A.meaning chip.old) (event A.Stored.Word.kind chip.old.opening (seen A.meaning chip.old) expected.call expected.answer) (seen A.meaning chip.new) }
{
    let answer = chip.play(expected.call);
    same_answer(answer, expected.answer)
}

// Shows an answer that has something to tell.
fn show(rt: &HostRuntime, answer: Result<u16, Refusal>) -> io::Result<()> {
    match answer {
        Ok(0) => Ok(()),
        Ok(value) => println!(rt; "  {value:04X}h"),
        Err(refusal) => println!(rt; "  refused: {}", refusal.number()),
    }
}

// Plays a case. The first answer that is not the one expected ends the program.
pub fn play_case<A: CellArray>(
    rt: &HostRuntime,
    title: &str,
    chip: &mut Chip<A>,
    case: &[Expected],
) -> anyhow::Result<()> {
    rt.println(title)?;
    for expected in case {
        ensure!(plays(chip, *expected), "not the answer that is expected");
        show(rt, expected.answer)?;
    }
    Ok(())
}
