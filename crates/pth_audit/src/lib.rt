//! What can be said of a run from outside: which threads wait in a circle for each other's mutexes, and whether marks meet the laws.
#![tactic(auto)]

pub mod auditor;
mod block;
pub mod cycle;
mod endings;
pub mod error;
mod handlers;
mod holds;
pub mod laws;
mod mailboxes;
mod success;
mod threads;
pub mod tids;
mod values;
pub mod verdict;
