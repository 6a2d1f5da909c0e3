// Data cycles, the write protect pin, and a look into the array.
ghost use Rattle.std.specs.Prelude.{◌≡◌};
ghost use Rattle.chip.specs.Calls.{seen, Called};

use crate::starts::has_row;
use crate::{Chip, codes};
use arrays::CellArray;
use records::call::Call;
use refusals::Refusal;
use rules::state::State;

impl<A: CellArray> Chip<A> {
    // A data cycle in: the word stands at the next column of the register.
    pub fn write(&mut self, code: u16) -> Result<u16, Refusal>
        ensures called { Called A.Stored.Word.kind self.old.opening (seen A.meaning self.old) (Call.Write code) result (seen A.meaning self.new) }
        ensures array { self.new.array ≡ self.old.array }
        ensures opening { self.new.opening ≡ self.old.opening }
    {
        self.alive()?;
        let columns = self.opening.part.columns();
        if !codes::is_lawful::<A::Stored>(code) {
            return Err(Refusal::Unlawful);
        }
        match &mut self.control.state {
            State::Load { next, written, .. } => {
                let place = *next;
                if place >= columns {
                    return Err(Refusal::NoColumn);
                }
                *next = place + 1;
                *written = true;
                self.control.register.put(place, code);
                Ok(0)
            }
            State::Busy(_) => Err(Refusal::Busy),
            _ => Err(Refusal::Unknown),
        }
    }

    // A data cycle out: a word of the page, the status, a code of the maker or a lock code.
    pub fn read(&mut self) -> Result<u16, Refusal>
        ensures called { Called A.Stored.Word.kind self.old.opening (seen A.meaning self.old) Call.Read result (seen A.meaning self.new) }
        ensures array { self.new.array ≡ self.old.array }
        ensures opening { self.new.opening ≡ self.old.opening }
    {
        self.alive()?;
        let part = self.opening.part;
        let device = u16::from(self.opening.device);
        let columns = part.columns();
        let erased = codes::erased_code::<A::Stored>();
        let status = self.control.status();
        match &mut self.control.state {
            State::PageOut { next, .. } => {
                let column = *next;
                if column >= columns {
                    return Err(Refusal::NoColumn);
                }
                *next = column + 1;
                Ok(self.control.register.get(column, erased))
            }
            State::Id { next } => match *next {
                0 => {
                    *next = 1;
                    Ok(0xEC)
                }
                1 => {
                    *next = 2;
                    Ok(device)
                }
                _ => Err(Refusal::NoColumn),
            },
            State::LockCode { block } => {
                let block = *block;
                Ok(self.control.lock_code(part, block))
            }
            State::Status | State::Busy(_) => Ok(status),
            _ => Err(Refusal::Unknown),
        }
    }

    // The level of the write protect pin; low closes the open range and ends tight.
    pub fn protect(&mut self, level: u8) -> Result<u16, Refusal>
        ensures called { Called A.Stored.Word.kind self.old.opening (seen A.meaning self.old) (Call.Protect level) result (seen A.meaning self.new) }
        ensures array { self.new.array ≡ self.old.array }
        ensures opening { self.new.opening ≡ self.old.opening }
    {
        self.alive()?;
        if level >= 2 {
            return Err(Refusal::Unlawful);
        }
        if self.control.state.is_busy() {
            return Err(Refusal::Busy);
        }
        if level == 0 {
            self.control.wp = false;
            self.control.tight = false;
            self.control.range = None;
        } else {
            self.control.wp = true;
        }
        Ok(0)
    }

    // Shows a code of the array; nothing moves.
    pub fn look(&self, row: u32, column: u16) -> Result<u16, Refusal>
        ensures { Called A.Stored.Word.kind self.now.opening (seen A.meaning self.now) (Call.Look row column) result (seen A.meaning self.now) }
    {
        self.alive()?;
        if !has_row(&self.array, row) {
            return Err(Refusal::Outside);
        }
        let column = usize::from(column);
        if column >= self.array.columns() {
            return Err(Refusal::NoColumn);
        }
        Ok(self.array.code(row as usize, column))
    }
}
