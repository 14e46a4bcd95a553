//! Turns: which thread runs next, its steps, and what happens between turns.
//!
//! `begin` begins any call of the thread that runs, as `begun` says. For every program: if a machine stands at a part
//! of a run, `Machine::advance` brings it to the part at which the run to n more steps stops, and appends exactly the
//! marks between; `Machine::turn` does so too, but no further than to the end of a turn. After want of memory a
//! beginning of these marks was appended. `pass` and `idle` make one pass and one move of idle time. A run does not
//! depend on how it is cut, it comes to each number of steps or to its end before, and if main's end ends it, that is
//! told last (`laws`).
#![tactic(auto)]

pub mod begin;
pub mod laws;
mod live;
pub mod machine;
mod moments;
mod non_waking;
mod pass_room;
mod passes;
mod quiescence;
mod schedule;
mod turns;
