// Command cycles.
ghost use Rattle.std.specs.Prelude.{◌≡◌};
ghost use Rattle.rules.specs.Moving.{read_from};
ghost use Rattle.chip.specs.Calls.{seen, Called};
ghost use Rattle.chip.specs.Cycles.{Cycled};

use crate::landing::cut_off;
use crate::starts::{is_full, refuse_start, rows_for, told};
use crate::{Chip, codes};
use arrays::CellArray;
use records::call::Call;
use refusals::Refusal;
use rules::command::Command;
use rules::control::{Control, Opening};
use rules::part::Pointer;
use rules::state::{Aim, Purpose, State, Work};

// A column cycle of a read is next, from an area.
fn read_from(control: &mut Control, area: Pointer)
    ensures { control.new ≡ read_from control.old area }
{
    control.state = State::Column(Purpose::Read);
    control.pointer = area;
}

// What a command does to the control; `landed` says whether the array did what FFh asked of it. The chip's fields come one by one, so
// that their types say what changes.
fn cycle<A: CellArray>(
    control: &mut Control,
    opening: Opening,
    array: &A,
    command: Option<Command>,
    landed: bool,
) -> Result<u16, Refusal>
    ensures { Cycled A.Stored.Word.kind opening (A.meaning array.now).holds landed control.old command result control.new }
{
    let part = opening.part;
    let erased = codes::erased_code::<A::Stored>();
    match (&mut control.state, command) {
        (_, Some(Command::Reset)) => {
            read_from(control, Pointer::A);
            control.fail = false;
            told(landed)
        }
        (State::Busy(_), Some(Command::Status)) => Ok(0),
        (State::Busy(_), _) => Err(Refusal::Busy),
        (_, Some(Command::ReadA)) => {
            read_from(control, Pointer::A);
            Ok(0)
        }
        (_, Some(Command::ReadB)) => {
            read_from(control, Pointer::B);
            Ok(0)
        }
        (_, Some(Command::ReadC)) => {
            read_from(control, Pointer::C);
            Ok(0)
        }
        (state, Some(Command::Load)) => {
            *state = State::Column(Purpose::Load);
            control.register.clear(erased);
            Ok(0)
        }
        (State::Load { row, written, .. }, Some(Command::Program)) => {
            let row = *row;
            if !*written {
                return Err(Refusal::NoWord);
            }
            if control.is_protected(part, row) {
                return refuse_start(control, Refusal::Protected);
            }
            if is_full(opening, array, row) {
                return refuse_start(control, Refusal::PageFull);
            }
            control.state = State::Busy(Work::Program { row, closes: false });
            Ok(0)
        }
        (state, Some(Command::EraseSetup)) => {
            *state = rows_for(Aim::Erase);
            Ok(0)
        }
        (State::EraseReady { row }, Some(Command::EraseConfirm)) => {
            let row = *row;
            if control.is_protected(part, row) {
                return refuse_start(control, Refusal::Protected);
            }
            control.state = State::Busy(Work::Erase { block: row / 32 });
            Ok(0)
        }
        (State::PageOut { row, .. }, Some(Command::CopyBack)) => {
            let from = *row;
            control.state = State::Column(Purpose::CopyBack { from });
            Ok(0)
        }
        (state, Some(Command::Status)) => {
            *state = State::Status;
            Ok(0)
        }
        (state, Some(Command::Id)) => {
            *state = State::IdAddress;
            Ok(0)
        }
        (state, Some(Command::Lock)) => {
            if control.tight {
                return Err(Refusal::Locked);
            }
            *state = State::Status;
            control.range = None;
            Ok(0)
        }
        (state, Some(Command::LockTight)) => {
            *state = State::Status;
            control.tight = true;
            control.range = None;
            Ok(0)
        }
        (state, Some(Command::UnlockFirst)) => {
            if control.tight {
                return Err(Refusal::Locked);
            }
            *state = rows_for(Aim::UnlockFirst);
            Ok(0)
        }
        (State::UnlockReady { first }, Some(Command::UnlockLast)) => {
            let first = *first;
            control.state = rows_for(Aim::UnlockLast { first });
            Ok(0)
        }
        (state, Some(Command::LockStatus)) => {
            *state = rows_for(Aim::LockStatus);
            Ok(0)
        }
        // a command with no meaning here, or a byte that names none
        _ => Err(Refusal::Unknown),
    }
}

impl<A: CellArray> Chip<A> {
    // A command cycle.
    pub fn command(&mut self, byte: u8) -> Result<u16, Refusal>
        ensures called { Called A.Stored.Word.kind self.old.opening (seen A.meaning self.old) (Call.Command byte) result (seen A.meaning self.new) }
        ensures rest { A.rest self.new.array ≡ A.rest self.old.array }
        ensures opening { self.new.opening ≡ self.old.opening }
    {
        self.alive()?;
        let command = self.opening.part.decode(byte);
        let landed = cut_off(&mut self.array, &self.control, self.opening.part, command);
        cycle(
            &mut self.control,
            self.opening,
            &self.array,
            command,
            landed,
        )
    }
}
