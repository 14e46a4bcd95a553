//! The thread machine in plain terms: its definitions are in `specs/`, and the types here are what they speak of.
//!
//! The definitions claim nothing by themselves. What is proved of them: in every state of every run each queue
//! shows exactly those who stand there, the greater rank first and at equal ranks the earlier entry, and no thread
//! stands in two places (`standings`); what threads have is what the marks of the run tell (`resources`); looks at one moment
//! are one look (`looks`); and seven runs are computed (`example`). The functions for moments, lengths, what a wait holds
//! and the ring that a call was given equal their definitions for all operands, and none wraps.
#![tactic(auto)]

pub mod awaits;
pub mod blocked;
pub mod cancel_states;
pub mod destructors;
pub mod example;
pub mod living;
pub mod looks;
pub mod next;
pub mod progress;
pub mod resources;
pub mod standings;
pub mod times;
pub mod verdict;
