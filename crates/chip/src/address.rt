// Address cycles.
ghost use Rattle.std.specs.Prelude.{◌≡◌};
ghost use Rattle.rules.specs.Answering.{apart};
ghost use Rattle.rules.specs.Moving.{aim_of};
ghost use Rattle.chip.specs.Calls.{seen, Called};
ghost use Rattle.chip.specs.Cycles.{Arrived, Addressed};

use crate::Chip;
use crate::starts::{has_row, is_full, refuse_start, rows_for};
use arrays::CellArray;
use records::call::Call;
use refusals::Refusal;
use rules::control::{Control, OpenRange, Opening};
use rules::state::{Aim, Purpose, State, Work};

// What the row cycles after a column cycle are for: of two values, so no `From`.
fn aim_of(column: u16, purpose: Purpose) -> Aim
    ensures { result ≡ aim_of column purpose }
{
    match purpose {
        Purpose::Read => Aim::Read { column },
        Purpose::Load => Aim::Load { column },
        Purpose::CopyBack { from } => Aim::CopyBack { from },
    }
}

// Whether two blocks lie in different planes: they differ in bit 0 or bit 11.
fn is_apart(a: u32, b: u32) -> bool
    ensures { result ≡ apart a b }
{
    a % 2 != b % 2 || (a / 2048) % 2 != (b / 2048) % 2
}

// The last cycle of a row. The chip's fields come one by one, so that their types say what changes.
fn arrive<A: CellArray>(
    control: &mut Control,
    opening: Opening,
    array: &A,
    aim: Aim,
    row: u32,
) -> Result<u16, Refusal>
    ensures { Arrived A.Stored.Word.kind opening (A.meaning array.now).holds control.old aim row result control.new }
{
    let part = opening.part;
    let back = control.pointer.fallen_back();
    let block = row / 32;
    if !has_row(array, row) {
        return Err(Refusal::Outside);
    }
    match aim {
        Aim::Read { column } => {
            control.register.fetch(array, part, row);
            control.state = State::PageOut { row, next: column };
            control.pointer = back;
            Ok(0)
        }
        Aim::Load { column } => {
            control.state = State::Load {
                row,
                next: column,
                written: false,
            };
            control.pointer = back;
            Ok(0)
        }
        Aim::Erase => {
            control.state = State::EraseReady { row };
            control.pointer = back;
            Ok(0)
        }
        Aim::CopyBack { from } => {
            if control.is_protected(part, row) {
                return refuse_start(control, Refusal::Protected);
            }
            if is_full(opening, array, row) {
                return refuse_start(control, Refusal::PageFull);
            }
            if is_apart(from / 32, block) {
                return refuse_start(control, Refusal::OtherPlane);
            }
            control.state = State::Busy(Work::Program { row, closes: true });
            Ok(0)
        }
        Aim::UnlockFirst => {
            control.state = State::UnlockReady { first: block };
            Ok(0)
        }
        Aim::UnlockLast { first } => {
            if block < first {
                return Err(Refusal::Locked);
            }
            control.range = Some(OpenRange { first, last: block });
            control.state = State::Status;
            Ok(0)
        }
        Aim::LockStatus => {
            control.state = State::LockCode { block };
            Ok(0)
        }
    }
}

// An address cycle of a chip that is not dead; the fields come as they do to `arrive`.
fn cycle<A: CellArray>(
    control: &mut Control,
    opening: Opening,
    array: &A,
    byte: u8,
) -> Result<u16, Refusal>
    ensures { Addressed A.Stored.Word.kind opening (A.meaning array.now).holds control.old byte result control.new }
{
    let part = opening.part;
    let column = part.start_column(control.pointer, byte);
    match control.state {
        State::Column(purpose) => {
            control.state = rows_for(aim_of(column, purpose));
            Ok(0)
        }
        State::PageOut { .. } => {
            control.state = rows_for(Aim::Read { column });
            Ok(0)
        }
        State::Row { aim, taken, row } => {
            let row = part.next_row(row, taken, byte);
            if part.is_last(taken) {
                return arrive(control, opening, array, aim, row);
            }
            control.state = State::Row {
                aim,
                taken: taken + 1,
                row,
            };
            Ok(0)
        }
        State::IdAddress => {
            control.state = State::Id { next: 0 };
            Ok(0)
        }
        State::Busy(_) => Err(Refusal::Busy),
        _ => Err(Refusal::Unknown),
    }
}

impl<A: CellArray> Chip<A> {
    // An address cycle.
    pub fn address(&mut self, byte: u8) -> Result<u16, Refusal>
        ensures called { Called A.Stored.Word.kind self.old.opening (seen A.meaning self.old) (Call.Address byte) result (seen A.meaning self.new) }
        ensures array { self.new.array ≡ self.old.array }
        ensures opening { self.new.opening ≡ self.old.opening }
    {
        self.alive()?;
        cycle(&mut self.control, self.opening, &self.array, byte)
    }
}
