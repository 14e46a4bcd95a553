//! The law of turns: whose line each mark of a run is, and who waits.
//!
//! `specs/Turns.antt` states it as an account that is kept of the marks. `turns` promises it of every run, and `judge` keeps that account
//! over any marks.
#![tactic(auto)]

pub mod judge;
pub mod turns;
