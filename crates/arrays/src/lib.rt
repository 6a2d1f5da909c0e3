// Arrays of cells: the trait that says what every array does, and the arrays themselves.
#![tactic(auto)]

pub mod cell_array;
pub mod defect;
mod defect_list;
pub mod flat;
pub mod job;
pub mod lent;
mod memory;
pub mod stack;

pub use cell_array::CellArray;
pub use defect::DefectArray;
pub use flat::FlatArray;
pub use stack::Stack;
