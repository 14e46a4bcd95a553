//! What a world keeps by slot of its queues and of its threads' programs.
//!
//! `CountedQueues` has the clauses of a `QueueSet`, and tells the length of a queue, the rank of a slot, and how many dispatches
//! of others a ready thread waited and how many it may. `ProgressTable` has how far the thread at each slot is, and beside it
//! what the thread waits for. What a call refuses changes nothing.
#![tactic(auto)]

pub mod counted_queues;
mod dispatching;
mod due;
mod mark;
pub mod progress_table;
pub mod waits;
