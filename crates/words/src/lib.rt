// Words of cells: what a stored word can do, and the three kinds of word.
#![tactic(auto)]

pub mod byte;
pub mod doubting;
pub mod wide;
pub mod word;

pub use doubting::DoubtingByte;
pub use word::Word;
