//! Thread bodies and rules as boxed values, and the program that they are.
#![tactic(auto)]

pub mod bodies;
pub mod body;
pub mod cells;
pub mod regs;
pub mod rules;
pub mod thread;
