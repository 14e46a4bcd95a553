//! One attempt at a call on descriptors.
//!
//! An attempt is answered exactly if its definition has an answer, and then with it; and it does to the kernel what
//! that says (`specs/Attempts.antt`). For each call a question tells whether it would be answered, and changes
//! nothing. Only a read takes memory; refused, it changes nothing.
#![tactic(auto)]

pub mod attempt;
pub mod connections;
mod readiness;
pub mod select;
pub mod transfers;
