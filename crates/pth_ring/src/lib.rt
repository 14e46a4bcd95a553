//! Events and the rings in which they stand: nodes that name their neighbours, found by their numbers.
//!
//! What is said of them is said of lists by number (`specs/Rings.antt`): of each event its ring, read from it on,
//! and what it is of, its status, its next look and its claim. Each call is one equation of these tables. It is
//! answered as its tests in order say, and refused it changes nothing. An event that is made or chained has the
//! next number and is pending; there are at most 4,096. `claim` makes the events of a ring pending and puts the
//! claim at the event that was given. Only `make` and `chain` take memory. An event's node has the numbers of the
//! events before and after it; rings that are joined or parted change at most four of them (`laws`). When an event
//! occurs is not known here.
#![tactic(auto)]

pub mod event;
pub mod laws;
mod links;
mod marks;
mod node;
pub mod rings;
mod rounds;
