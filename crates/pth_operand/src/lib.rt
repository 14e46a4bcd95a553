//! What the words of a script's lines name, and what a thread that runs the script holds.
//!
//! `Operand`, `Value` and `ByteOperand` are what a line has in place of a number or of bytes. A `Frame` is one thread,
//! `Cells` are the registers that all threads share.
#![tactic(auto)]

mod answers;
pub mod cells;
pub mod frame;
pub mod operand;
pub mod relation;
