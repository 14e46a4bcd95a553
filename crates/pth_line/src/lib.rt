//! The lines of a script, and what each does in a thread that runs it.
//!
//! As a `Program` a script equals `functions_of` its handlers, checks and bodies: each step keeps what the answer
//! of the thread's last call gives it, and makes one line. A call line makes the call of its word, each operand
//! replaced by its number. Only want of memory refuses.
//!
//! Lines keep operands, and each `goto` its place, so a step takes memory only for bytes.
#![tactic(auto)]

pub mod act_line;
pub mod argument;
pub mod block;
mod call;
pub mod call_line;
pub mod check;
pub mod line;
mod places;
pub mod script;
