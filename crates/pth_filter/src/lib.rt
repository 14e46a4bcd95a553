//! Programs that read one object and write one text: what all of them do.
//!
//! `Filter` (`specs/Filter.antt`) is a program: its name, what its words ask for, the object that it reads, and its output. `Answers` says
//! what a call of it does by its status. A program reads, makes its text and writes it (`Ran`), and `finish` ends the call.
#![tactic(auto)]

pub mod faults;
pub mod finish;
pub mod help;
