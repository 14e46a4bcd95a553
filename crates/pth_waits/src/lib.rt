//! What the calls that may block their thread come to, how that is carried out, and whether a blocked thread is to wake.
//!
//! For every whole world, and every state for which it stands: an attempt at such a call (`attempts`, `barriers`,
//! `conditions`, `joins`, `rests`, `ring_waits`, `io`, `mutexes`, `rwlocks`, `thread_ends`) comes to the verdict of its row, does what the row does, and
//! tells nothing. `carry_out` and `carry_on` (`verdicts`) do what follows from a verdict, as `begun_by` and `tried_by`
//! say. `kill` and `cancel_point` begin as `begun` says. `resume` goes on with a thread that a call blocks, as `gone_on`
//! says: it is canceled in the call if it may be, and else the call is tried again; but a wait at a condition goes on by
//! itself (`conditions`). What comes next for the thread, the
//! new state and the marks are the definition's; after want of memory a beginning of the marks was told, and the world
//! may only be dropped.
//! `is_to_wake` looks at the events of the ring of a blocked thread, and answers whether what the thread waits for has
//! come, one of these events is not pending, or it may be canceled. Before the moment that `dormant_until` tells, it is
//! not to wake, if nothing changes but time.
#![tactic(auto)]

pub mod attempts;
mod barriers;
mod blocks;
pub mod cancellation;
mod conditions;
pub mod dormant;
mod io;
pub mod joins;
pub mod library_ends;
mod locking;
pub mod looks;
mod mutexes;
mod rests;
pub mod resume;
mod ring_waits;
mod rwlocks;
mod thread_ends;
mod trials;
pub mod verdicts;
pub mod wakes;
