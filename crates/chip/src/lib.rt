// A chip over any array of cells: the seven calls, and the call that plays one of them.
#![tactic(auto)]

ghost use Rattle.std.specs.Prelude.{◌≡◌, true, false, MatchResult};
ghost use Rattle.arrays.specs.Meaning.{Meaning};
ghost use Rattle.rules.specs.Answering.{is_dead, unless, done};
ghost use Rattle.rules.specs.Controls.{fresh};
ghost use Rattle.rules.specs.Running.{Step};
ghost use Rattle.chip.specs.Calls.{seen, event, Called};

use arrays::CellArray;
use records::call::Call;
use refusals::Refusal;
use rules::control::{Control, Opening};
use words::Word;

mod address;
mod codes;
mod command;
mod data;
mod landing;
pub mod laws;
mod starts;

// Its public calls each say what stays of `array`, `rest` and `opening`, since a caller reads a call by itself. It has no model: clauses
// name the array itself, and what it means, beside the control.
#[derive(Drop)]
pub struct Chip<A> {
    array: A,
    control: Control,
    opening: Opening,
}

impl<A: CellArray> Chip<A> {
    // A chip over the array as it is.
    pub fn open(opening: Opening, array: A) -> Self
        ensures array { result.array ≡ array }
        ensures control { result.control ≡ fresh A.Stored.Word.kind.erased }
        ensures opening { result.opening ≡ opening }
    {
        let erased = codes::erased_code::<A::Stored>();
        Chip {
            array,
            control: Control::fresh(erased),
            opening,
        }
    }

    // What the chip was opened with.
    pub fn opening(&self) -> Opening
        ensures { result ≡ self.now.opening }
    {
        self.opening
    }

    pub fn array(&self) -> &A
        ensures { result.now ≡ self.now.array }
    {
        &self.array
    }

    // Refused where part, limit and array do not fit together.
    fn alive(&self) -> Result<(), Refusal>
        ensures { MatchResult result (λ _. is_dead A.Stored.Word.kind self.now.opening (A.meaning self.now.array).holds.shape ≡ false)
            (λ why. (why ≡ Refusal.Dead) × (is_dead A.Stored.Word.kind self.now.opening (A.meaning self.now.array).holds.shape ≡ true)) }
    {
        let cells = <A::Stored as Word>::cells();
        let columns = self.array.columns();
        let blocks = self.array.blocks();
        let fits = self.opening.fits(columns, blocks, usize::from(cells));
        if fits { Ok(()) } else { Err(Refusal::Dead) }
    }

    // Whether the chip can be used: 0, or a refusal. Every call answers a number, 0 where there is
    // nothing to tell: a rule of the project.
    pub fn check(&self) -> Result<u16, Refusal>
        ensures { result ≡ unless (is_dead A.Stored.Word.kind self.now.opening (A.meaning self.now.array).holds.shape) Refusal.Dead done }
    {
        self.alive()?;
        Ok(0)
    }

    // The call of that name. The seven calls are an enum that is driven into the chip: a rule of the
    // project.
    fn dispatch(&mut self, call: Call) -> Result<u16, Refusal>
        ensures called { Called A.Stored.Word.kind self.old.opening (seen A.meaning self.old) call result (seen A.meaning self.new) }
        ensures rest { A.rest self.new.array ≡ A.rest self.old.array }
        ensures opening { self.new.opening ≡ self.old.opening }
    {
        match call {
            Call::Command(byte) => self.command(byte),
            Call::Address(byte) => self.address(byte),
            Call::Write(code) => self.write(code),
            Call::Read => self.read(),
            Call::Protect(level) => self.protect(level),
            Call::Settle => self.settle(),
            Call::Look { row, column } => self.look(row, column),
        }
    }

    // Plays a call: one step of the rules. Apart from `dispatch`, from whose promise this one follows.
    pub fn play(&mut self, call: Call) -> Result<u16, Refusal>
        ensures step { Step A.Stored.Word.kind self.old.opening (seen A.meaning self.old) (event A.Stored.Word.kind self.old.opening (seen A.meaning self.old) call result) (seen A.meaning self.new) }
        ensures rest { A.rest self.new.array ≡ A.rest self.old.array }
        ensures opening { self.new.opening ≡ self.old.opening }
    {
        self.dispatch(call)
    }

    // Gives the array back.
    pub fn into_array(self) -> A
        ensures { result ≡ self.array }
    {
        self.array
    }
}
