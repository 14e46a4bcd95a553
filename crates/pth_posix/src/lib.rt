//! POSIX thread calls on the thread machine.
//!
//! A `PosixProgram` gives POSIX calls as a `Program` gives calls of Pth. `Posix` makes a `Program` of it, which equals
//! `functions_of_posix` as long as memory lasts: a step gives the next call of Pth that `plan` has for the POSIX call, or hands its
//! answer to the program. `Listed` is a `PosixProgram` whose bodies are lists of calls.
#![tactic(auto)]

mod cancel_state;
pub mod laws;
pub mod listed;
pub mod panswer;
pub mod pcall;
pub mod plan;
pub mod posix;
pub mod posix_program;
mod reading;
pub mod series;
