//! The lines that a run prints.
//!
//! `mark_line`, `end_line`, `summary_line` and `fault_line` add exactly the line that `specs/` defines. If memory
//! runs out they have added a beginning of it. `Fault::status` is the exit status of a fault.
#![tactic(auto)]

mod act;
mod answer;
mod call;
mod call_parts;
pub mod end_line;
pub mod fault_line;
pub mod laws;
pub mod mark_line;
mod mark_shape;
mod operand_word;
mod parts;
mod set;
pub mod summary_line;
mod word;
