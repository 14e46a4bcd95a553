//! What the words of the command line ask for.
//!
//! `read_words` gives what the words ask for. It refuses them exactly if the command refuses them, or what they ask for does
//! not go together (`agreed`), unless memory runs out. What the command refuses, and what words ask for, is told by `clap`'s own
//! definition (`specs/CommandLine.antt`), for the command in `specs/Command.antt`. The number of steps is from 1 to
//! 1,000,000,000, and that of threads of a workload from 1 to 1,000.
#![tactic(auto)]

pub mod choice;
mod command;
pub mod command_line;
