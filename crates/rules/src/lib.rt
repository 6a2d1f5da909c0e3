// The rules of the chips: the types they speak of, their definitions, and the laws over runs of calls.
#![tactic(auto)]

pub mod cases;
pub mod command;
pub mod conduct;
pub mod control;
pub mod laws;
pub mod part;
pub mod register;
pub mod state;
