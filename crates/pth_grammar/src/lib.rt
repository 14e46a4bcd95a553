//! What the lines of a script stand for, and the rules on their words.
//!
//! `line`, `act_line` and `check_line` give what `specs/LineMeanings.antt` says. `words_fault` gives the first of
//! the rules `word`, `count`, `operand` and `hex` that the words of a line break in its section, and none if they
//! break none; the words that each line must have are a table (`specs/Forms.antt`, and `specs/KernelForms.antt` for a
//! section `kernel`). A line that breaks none of them stands for something (`laws`). `clock_line`, `open_line` and
//! `stamp_line` give what `specs/KernelLines.antt` says of a kernel's lines, and this is in its range.
#![tactic(auto)]

mod acts;
mod arguments;
mod call_line;
pub mod fault;
mod forms;
pub mod kernel_forms;
pub mod kernel_lines;
mod kernel_numbers;
pub mod kernel_part;
pub mod laws;
pub mod lines;
pub mod section;
mod shape;
