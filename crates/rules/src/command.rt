// The commands, and the bytes that name them.
ghost use Rattle.std.specs.Prelude.{◌≡◌, ℕ};
ghost use Rattle.rules.specs.Commands.{knows, decoded};

use crate::part::Part;
use refusals::Refusal;

#[derive(Clone, Copy)]
pub enum Command {
    // 00h: read, from area A
    ReadA,
    // 01h: read, from area B
    ReadB,
    // 50h: read, from area C
    ReadC,
    // 80h: load a page into the register
    Load,
    // 10h: start the program of the page that was loaded
    Program,
    // 60h: the row of an erase follows
    EraseSetup,
    // D0h: start the erase
    EraseConfirm,
    // 8Ah: program the page that was read into another row
    CopyBack,
    // 70h
    Status,
    // 90h
    Id,
    // FFh
    Reset,
    // 2Ah: close the open range
    Lock,
    // 2Ch: close the open range, and lock tight
    LockTight,
    // 23h: the first block of a range to open follows
    UnlockFirst,
    // 24h: its last block follows
    UnlockLast,
    // 7Ah: the block whose lock code is wanted follows
    LockStatus,
}

// The command that a byte names; a byte that names none is refused.
impl TryFrom<u8> for Command {
    type Error = Refusal;

    ghost use Rattle.refusals.specs.declared.Refusal.TheVariants.{Unknown};
    ghost use Rattle.std.specs.Prelude.{ok_or};
    ghost use Rattle.rules.specs.Commands.{command_of};

    ghost try_from_gives = { λ byte r. r ≡ ok_or (command_of byte) Unknown };

    fn try_from(byte: u8) -> Result<Command, Refusal> {
        match byte {
            0x00 => Ok(Command::ReadA),
            0x01 => Ok(Command::ReadB),
            0x50 => Ok(Command::ReadC),
            0x80 => Ok(Command::Load),
            0x10 => Ok(Command::Program),
            0x60 => Ok(Command::EraseSetup),
            0xD0 => Ok(Command::EraseConfirm),
            0x8A => Ok(Command::CopyBack),
            0x70 => Ok(Command::Status),
            0x90 => Ok(Command::Id),
            0xFF => Ok(Command::Reset),
            0x2A => Ok(Command::Lock),
            0x2C => Ok(Command::LockTight),
            0x23 => Ok(Command::UnlockFirst),
            0x24 => Ok(Command::UnlockLast),
            0x7A => Ok(Command::LockStatus),
            _ => Err(Refusal::Unknown),
        }
    }
}

impl Part {
    // Whether the part has the command.
    pub fn knows(self, command: Command) -> bool
        ensures { result ≡ knows self command }
    {
        match command {
            Command::ReadB => self.has_b(),
            Command::Lock
            | Command::LockTight
            | Command::UnlockFirst
            | Command::UnlockLast
            | Command::LockStatus
            | Command::CopyBack => self.locks(),
            Command::ReadA
            | Command::ReadC
            | Command::Load
            | Command::Program
            | Command::EraseSetup
            | Command::EraseConfirm
            | Command::Status
            | Command::Id
            | Command::Reset => true,
        }
    }

    // The command that a byte names on this part.
    pub fn decode(self, byte: u8) -> Option<Command>
        ensures { result ≡ decoded self byte }
    {
        Command::try_from(byte)
            .ok()
            .filter(|command| self.knows(*command))
    }
}
