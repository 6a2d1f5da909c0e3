// What is under way comes to its end: the array is asked for it.
ghost use Rattle.std.specs.Prelude.{◌≡◌, Some};
ghost use Rattle.arrays.specs.Meaning.{Performs};
ghost use Rattle.rules.specs.Asking.{cycle_ending};
ghost use Rattle.rules.specs.Controls.{under};
ghost use Rattle.chip.specs.Calls.{seen, Called, asks_of};
ghost use Rattle.chip.specs.Cycles.{Ended, form_ending};

use crate::starts::told;
use crate::{Chip, codes};
use arrays::CellArray;
use records::call::Call;
use refusals::Refusal;
use rules::command::Command;
use rules::control::Control;
use rules::part::Part;
use rules::register::PageRegister;
use rules::state::{State, Work};

// How what is under way ends: one of two, so a closure would be no plainer.
#[derive(Clone, Copy)]
enum Form {
    Whole,
    // cut off
    Torn,
}

// Lands an operation; whether the array did it.
fn land<A: CellArray>(
    array: &mut A,
    register: &PageRegister,
    part: Part,
    work: Work,
    form: Form,
) -> bool
    ensures done { Performs A.Stored.Word.kind (asks_of A.Stored.Word.kind part register.now.codes (form_ending form) (Some work)) (A.meaning array.old) result (A.meaning array.new) }
    ensures rest { A.rest array.new ≡ A.rest array.old }
{
    match (work, form) {
        (Work::Program { row, closes }, Form::Whole) => {
            array.program(row as usize, register.front(part), closes)
        }
        (Work::Program { row, closes }, Form::Torn) => {
            let cut = register.torn::<A::Stored>();
            array.program(row as usize, cut.front(part), closes)
        }
        (Work::Erase { block }, Form::Whole) => {
            array.fill(block as usize, codes::erased_code::<A::Stored>())
        }
        (Work::Erase { block }, Form::Torn) => {
            array.fill(block as usize, codes::torn_erase_code::<A::Stored>())
        }
    }
}

// FFh cuts off what is under way, all else leaves the array alone; whether the array did what it was asked.
pub(crate) fn cut_off<A: CellArray>(
    array: &mut A,
    control: &Control,
    part: Part,
    command: Option<Command>,
) -> bool
    ensures ended { Ended A.Stored.Word.kind (asks_of A.Stored.Word.kind part control.now.register.codes (cycle_ending command) (under control.now.state)) (A.meaning array.old) result (A.meaning array.new) }
    ensures rest { A.rest array.new ≡ A.rest array.old }
{
    match (control.state, command) {
        (State::Busy(work), Some(Command::Reset)) => {
            land(array, &control.register, part, work, Form::Torn)
        }
        _ => true,
    }
}

impl<A: CellArray> Chip<A> {
    // Waits until the operation under way has ended.
    pub fn settle(&mut self) -> Result<u16, Refusal>
        ensures called { Called A.Stored.Word.kind self.old.opening (seen A.meaning self.old) Call.Settle result (seen A.meaning self.new) }
        ensures rest { A.rest self.new.array ≡ A.rest self.old.array }
        ensures opening { self.new.opening ≡ self.old.opening }
    {
        self.alive()?;
        let State::Busy(work) = self.control.state else {
            return Err(Refusal::NotBusy);
        };
        let landed = land(
            &mut self.array,
            &self.control.register,
            self.opening.part,
            work,
            Form::Whole,
        );
        self.control.state = State::Status;
        self.control.fail = !landed;
        told(landed)
    }
}
