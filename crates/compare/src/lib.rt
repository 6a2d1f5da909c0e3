// Comparing two chips: what each was told, what it answered, and what its cells hold then.
#![tactic(auto)]

pub mod answers;
pub mod builds;
pub mod cells;
pub mod compare;
pub mod error;
mod playing;
pub mod traces;
