// Running traces: a chip plays the records of a trace one after another, and each leaves four result bytes.
#![tactic(auto)]

pub mod job;
pub mod results;
pub mod running;

pub use running::run;
