// Traces: the seven calls on a chip as records of bytes.
#![tactic(auto)]

pub mod call;
pub mod error;
pub mod flaws;
pub mod iter;
pub mod reader;
#[cfg(test)]
mod tests;
pub mod text;
pub mod writer;
