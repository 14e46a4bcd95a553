//! Why a run ended as it did, by its transcript.
//!
//! `explanation` in `specs/Explanation.antt` is the text, by the marks and the ending alone: how and when the run ended; each thread that
//! waits, with its call, what the call waits for, who holds that, and since when; and each refused call, with how often and where first.
//! Who holds a mutex or a lock is told by the folds of the laws (`pth_laws`). `explain` reads a transcript and writes its explanation. With
//! status 0 exactly the explanation was written, and with 3 the line that is told is none of a transcript (`IsRefusedAt`).
#![tactic(auto)]

mod cause;
mod circles;
mod clock;
pub mod explanation;
mod help;
mod holders;
mod holding;
pub mod laws;
pub mod piece;
mod refusals;
mod run;
mod threads;
mod top;
mod waits;
mod whom;
mod words;

pub use help::HELP;
pub use top::{PROGRAM, explain};
