//! Runs saved as texts, and taken up again.
#![tactic(auto)]

mod descriptor_row;
mod difference;
mod heading;
pub mod laws;
mod lead;
pub mod load;
mod mutex_row;
mod number;
mod place;
pub mod save;
mod thread_row;
