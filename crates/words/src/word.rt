// A word as an array stores it, and what its kind makes of it.
ghost use Rattle.std.specs.Prelude.{◌≡◌, ℕ, true, false, MatchResult};
ghost use Rattle.refusals.specs.declared.Refusal.TheVariants.{Unlawful};
ghost use Rattle.words.specs.Kind.{Kind, KindLaws};

use refusals::Refusal;

pub trait Word: Copy {
    // what codes mean in words of this kind
    ghost kind: { Kind };

    // the kind keeps the laws of every kind
    ghost laws: { KindLaws kind };

    // the code of a stored word
    ghost code: { Self → ℕ };

    // what is stored has a lawful code
    ghost stored: { (word : Self) → kind.lawful (code word) ≡ true };

    fn to_code(self) -> u16
        ensures { result ≡ code self };

    // The word of a code; a code that is not lawful is refused.
    fn from_code(c: u16) -> Result<Self, Refusal>
        ensures { MatchResult result (λ word. (kind.lawful c ≡ true) × (code word ≡ c)) (λ e. (kind.lawful c ≡ false) × (e ≡ Unlawful)) };

    // What a program of the other word over this one leaves: in each cell the lower level.
    fn join(self, other: Self) -> Self
        ensures { code result ≡ kind.join (code self) (code other) };

    fn erased() -> Self
        ensures { code result ≡ kind.erased };

    // What an interrupted program of this word writes.
    fn torn(self) -> Self
        ensures { code result ≡ kind.torn (code self) };

    // The same on codes, lawful or not.
    fn torn_code(c: u16) -> u16
        ensures { result ≡ kind.torn c };

    // What an interrupted erase leaves.
    fn torn_erase() -> Self
        ensures { code result ≡ kind.torn_erase };

    // How many cells a word has.
    fn cells() -> u8
        ensures { result ≡ kind.cells };
}
