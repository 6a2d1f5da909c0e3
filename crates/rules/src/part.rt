// The three parts, and the areas of a page that a read or a load starts in.
ghost use Rattle.std.specs.Prelude.{◌≡◌, ℕ, ◌<◌, ◌≤◌};
ghost use Rattle.rules.specs.Names.{part_name};
ghost use Rattle.rules.specs.Parts.{columns, cells, row_cycles, most_blocks, most_rows, locks, has_b, start_column, next_row, fallen_back, is_last};

use std::error::Error;
use std::fmt;
use std::str::FromStr;

#[derive(Clone, Copy, PartialEq, Eq, Debug)]
pub enum Part {
    K9K1208,
    K9K1216,
    K9F2808,
}

// A text that is no part's name.
#[derive(Clone, Copy, PartialEq, Eq, Debug)]
pub struct UnknownPart;

// The area of a page where column cycles count from.
#[derive(Clone, Copy, PartialEq, Eq, Debug)]
pub enum Pointer {
    A,
    B,
    C,
}

// Its tables have one shape and different meanings: as one table they would be no plainer.
impl Part {
    pub fn name(self) -> &'static str
        ensures { result.now ≡ part_name self }
    {
        match self {
            Part::K9K1208 => "K9K1208",
            Part::K9K1216 => "K9K1216",
            Part::K9F2808 => "K9F2808",
        }
    }

    // The words of a page, spare area included.
    pub fn columns(self) -> u16
        ensures value { result ≡ columns self }
        ensures some { 0 < result }
        ensures bound { result ≤ 528 }
    {
        match self {
            Part::K9K1208 | Part::K9F2808 => 528,
            Part::K9K1216 => 264,
        }
    }

    // The cells of a word.
    pub fn cells(self) -> u8
        ensures { result ≡ cells self }
    {
        match self {
            Part::K9K1208 | Part::K9F2808 => 8,
            Part::K9K1216 => 16,
        }
    }

    // How many address cycles a row takes.
    pub fn row_cycles(self) -> u8
        ensures value { result ≡ row_cycles self }
        ensures bound { result ≤ 3 }
    {
        match self {
            Part::K9K1208 | Part::K9K1216 => 3,
            Part::K9F2808 => 2,
        }
    }

    pub fn most_blocks(self) -> u32
        ensures value { result ≡ most_blocks self }
        ensures bound { result ≤ 4096 }
    {
        match self {
            Part::K9K1208 | Part::K9K1216 => 4096,
            Part::K9F2808 => 1024,
        }
    }

    // Row cycles count modulo this.
    pub fn most_rows(self) -> u32
        ensures value { result ≡ most_rows self }
        ensures some { 0 < result }
        ensures bound { result ≤ 131072 }
    {
        32 * self.most_blocks()
    }

    // Whether the part has the block lock and the copy-back.
    pub fn locks(self) -> bool
        ensures { result ≡ locks self }
    {
        matches!(self, Part::K9K1208 | Part::K9K1216)
    }

    // Whether the part has an area B.
    pub fn has_b(self) -> bool
        ensures { result ≡ has_b self }
    {
        matches!(self, Part::K9K1208 | Part::K9F2808)
    }

    // The column that a column cycle names, by the area that the pointer is on.
    pub fn start_column(self, pointer: Pointer, byte: u8) -> u16
        ensures { result ≡ start_column self pointer byte }
    {
        match (pointer, self) {
            (Pointer::A, _) => u16::from(byte),
            (Pointer::B, _) => 256 + u16::from(byte),
            (Pointer::C, Part::K9K1208 | Part::K9F2808) => 512 + u16::from(byte % 16),
            (Pointer::C, Part::K9K1216) => 256 + u16::from(byte % 8),
        }
    }

    // Whether the row cycle after `taken` others is the last one.
    pub fn is_last(self, taken: u8) -> bool
        ensures { result ≡ is_last self taken }
    {
        u16::from(taken) + 1 >= u16::from(self.row_cycles())
    }

    // The row with one more cycle, after `taken` others that came to `row`.
    pub fn next_row(self, row: u32, taken: u8, byte: u8) -> u32
        ensures { result ≡ next_row self row taken byte }
    {
        let place: u64 = match taken {
            0 => 1,
            1 => 256,
            _ => 65536,
        };
        let sum = u64::from(row) + u64::from(byte) * place;
        (sum % u64::from(self.most_rows())) as u32
    }
}

impl fmt::Display for Part {
    ghost use Rattle.std.specs.Prelude.{Some};
    ghost use Rattle.rules.specs.Names.{part_name};

    ghost output = { λ part. Some (part_name part) };

    fn fmt<W: fmt::Write>(&self, f: &mut fmt::Formatter<W>) -> fmt::Result {
        f.write_str(self.name())
    }
}

// Reads a part's name.
impl FromStr for Part {
    type Err = UnknownPart;

    ghost use Rattle.rules.specs.Names.{IsRead};

    ghost from_str_gives = { λ text r. IsRead text r };

    fn from_str(text: &str) -> Result<Part, UnknownPart> {
        match text {
            "K9K1208" => Ok(Part::K9K1208),
            "K9K1216" => Ok(Part::K9K1216),
            "K9F2808" => Ok(Part::K9F2808),
            _ => Err(UnknownPart),
        }
    }
}

impl fmt::Display for UnknownPart {
    ghost use Rattle.std.specs.Prelude.{Some, codes};

    ghost output = { λ _. Some (codes "no such part") };

    fn fmt<W: fmt::Write>(&self, f: &mut fmt::Formatter<W>) -> fmt::Result {
        f.write_str("no such part")
    }
}

impl Error for UnknownPart {}

impl Pointer {
    // of one shape with the tables above, and of another meaning
    // Area B holds for one read, load or erase.
    pub fn fallen_back(self) -> Pointer
        ensures { result ≡ fallen_back self }
    {
        match self {
            Pointer::A | Pointer::B => Pointer::A,
            Pointer::C => Pointer::C,
        }
    }
}
