// The three word kinds once more, written from their description alone, cell by cell.
#[derive(Clone, Copy)]
pub enum Reference {
    // so many cells of one bit each
    Bits(u32),
    Doubting,
}

fn bit(code: u16, at: u32) -> u8 {
    u8::from((code >> (at % 16)) & 1 == 1)
}

impl Reference {
    pub fn cells(self) -> u32 {
        match self {
            Reference::Bits(n) => n,
            Reference::Doubting => 8,
        }
    }

    pub fn is_lawful(self, code: u16) -> bool {
        match self {
            Reference::Bits(n) => (n..16).all(|at| bit(code, at) == 0),
            Reference::Doubting => {
                (0..8u32).all(|cell| bit(code, cell) == 0 || bit(code, cell + 8) == 0)
            }
        }
    }

    pub fn level(self, code: u16, cell: u32) -> u8 {
        match self {
            Reference::Bits(_) => bit(code, cell),
            Reference::Doubting if bit(code, cell) == 1 => 2,
            Reference::Doubting => bit(code, cell.wrapping_add(8)),
        }
    }

    // The level of a cell in the torn form.
    pub fn torn_level(self, code: u16, cell: u32) -> u8 {
        match self {
            Reference::Bits(_) => self.level(code, cell),
            Reference::Doubting => self.level(code, cell).max(1),
        }
    }

    // A lawful code for each number.
    pub fn nth_lawful(self, n: u32) -> u16 {
        let code = (n % 65536) as u16;
        match self {
            Reference::Bits(8) => code % 256,
            Reference::Bits(_) => code,
            Reference::Doubting => {
                let [erased, doubtful] = code.to_le_bytes();
                u16::from_le_bytes([erased, doubtful & !erased])
            }
        }
    }
}
