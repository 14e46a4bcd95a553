//! What threads lock, by slot: mutexes and read-write locks.
//!
//! Each call is one equation of the whole tables, is answered as its tests in order say, and refused it changes
//! nothing. So a mutex has one owner at most, with 1 to 65,535 levels; if a slot writes under a lock, no other
//! holds it; and who reads is counted (`MutexesAreSound`, `LocksAreSound`). `release_all` leaves a slot nothing and
//! the others what they have, and answers which objects these were. Only `new` takes memory.
//! As lists of holds: a call that takes adds one, a release drops one, an end drops those of its slot and no other
//! (`holds`).
#![tactic(auto)]

pub mod holds;
pub mod mutexes;
pub mod objects;
pub mod rwlocks;
pub mod sets;
