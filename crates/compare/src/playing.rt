// A list of calls, played on a chip.
ghost use Rattle.std.specs.Prelude.{◌≡◌, ◌≤◌, [], length, vec_capacity};
ghost use Rattle.chip.specs.Calls.{seen};
ghost use Rattle.compare.specs.Played.{Played};

use arrays::CellArray;
use chip::Chip;
use records::call::Call;
use refusals::Refusal;

// Plays the calls and puts their answers into room that was made for them, so that no call is played for whose answer there is no memory.
pub(crate) fn play_all<A: CellArray>(
    chip: &mut Chip<A>,
    calls: &[Call],
    room: Vec<Result<u16, Refusal>>,
) -> Vec<Result<u16, Refusal>>
    requires empty { room.items ≡ [] }
    requires roomy { length calls.now ≤ vec_capacity room }
    ensures played { Played A.Stored.Word.kind chip.old.opening (seen A.meaning chip.old) calls.now result.items (seen A.meaning chip.new) }
    ensures rest { A.rest chip.new.array ≡ A.rest chip.old.array }
    ensures opening { chip.new.opening ≡ chip.old.opening }
{
    let mut answers = room;
    for call in calls {
        let answer = chip.play(*call);
        answers.push_reserved(answer);
    }
    answers
}
