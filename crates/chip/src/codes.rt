// What a word kind says of codes.
ghost use Rattle.std.specs.Prelude.{◌≡◌};
ghost use Rattle.words.specs.Kind.{Kind};

use words::Word;

// The code of an erased word. This and the next are two questions of a word kind: one function of both
// would need a parameter to say which.
pub fn erased_code<W: Word>() -> u16
    ensures { result ≡ W.kind.erased }
{
    W::erased().to_code()
}

// The code that an interrupted erase leaves.
pub fn torn_erase_code<W: Word>() -> u16
    ensures { result ≡ W.kind.torn_erase }
{
    W::torn_erase().to_code()
}

pub fn is_lawful<W: Word>(code: u16) -> bool
    ensures { result ≡ W.kind.lawful code }
{
    W::from_code(code).is_ok()
}
