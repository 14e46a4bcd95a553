//! Tests of parts, which need no machine: what no run comes to, and calls that take memory.
#![tactic(auto)]

#[cfg(test)]
mod adapters;
#[cfg(test)]
mod answers;
#[cfg(test)]
mod checks;
#[cfg(test)]
mod comparison;
#[cfg(test)]
mod conditions;
#[cfg(test)]
mod lines;
#[cfg(test)]
mod memory;
#[cfg(test)]
mod numbered;
#[cfg(test)]
mod plans;
#[cfg(test)]
mod queues;
#[cfg(test)]
mod rings;
#[cfg(test)]
mod writes;
