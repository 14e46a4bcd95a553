//! Where threads wait for one another, by their numbers: conditions and barriers.
//!
//! Each call is one equation of the whole table, is answered as its tests in order say, and refused it changes nothing.
//! `Conds`: the seats of a condition stand in order of entry, those with a mark first (`ConditionsAreSound`). A seat with the
//! mark One that is handed on gives it to the first seat without one (`handing_on_keeps_ones`). Only `enter` takes memory.
//! `Barriers`: a barrier has its memory from `init` on, so that an arrival cannot fail for want of it. At every moment fewer
//! arrivals wait for the current round than make it (`BarriersAreSound`), and that a thread was the first of a round is told
//! at most once (`rounds`).
#![tactic(auto)]

pub mod barriers;
pub mod conditions;
pub mod rounds;
pub mod seats;
