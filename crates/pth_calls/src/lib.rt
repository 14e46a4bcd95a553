//! Calls that never block their thread, and end neither it nor the run.
//!
//! For every whole world, and every state for which it stands: `begin_plain` begins each call that only changes the
//! world and is answered. `yield_to` gives up control. `pop_cleanup`
//! and `once` run a handler before they are answered. `cancel` and `abort` end another thread in the caller's turn,
//! or set its request, or take it out of the system. What comes next for the caller, the new state and the marks
//! are those of `begun`, and the caller still runs; after want of memory a beginning of the marks was told, and the
//! world may only be dropped.
#![tactic(auto)]

pub mod attribute_handling;
mod barriers;
pub mod cancellation;
pub mod cleanups;
mod conditions;
pub mod descriptors;
pub mod event_handling;
mod handler_numbers;
pub mod key_storage;
pub mod library_control;
mod mutexes;
pub mod once;
pub mod plain;
mod ports;
mod rwlocks;
pub mod script_lines;
pub mod thread_control;
pub mod utilities;
