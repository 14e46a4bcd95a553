//! Transcripts, read.
//!
//! `read_line` takes a line only if the mark that it answers is printed so, byte for byte, and `read_ending` likewise. `Reader` gives
//! the lines of the input or of a file one by one, each as what it tells, in the memory of a line.
#![tactic(auto)]

mod act;
mod answer;
mod call;
pub mod ending;
mod lines;
mod number;
mod printed;
pub mod reader;
mod split;
mod thread;
pub mod told;
mod turn;
