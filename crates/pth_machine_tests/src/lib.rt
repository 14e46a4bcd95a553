//! Tests of a machine that runs scripts to their end, by pieces and by turns. Between them it is asked how long each ready thread has
//! waited and may wait, and what it tells is compared with its marks. Programs of POSIX calls and of boxed
//! bodies are run too, runs are saved and taken up, and circles are found in runs that stand still.
#![tactic(auto)]

#[cfg(test)]
mod audits;
#[cfg(test)]
mod boxed;
#[cfg(test)]
mod change;
#[cfg(test)]
mod circles;
#[cfg(test)]
mod comparison;
#[cfg(test)]
mod driven;
#[cfg(test)]
mod places;
#[cfg(test)]
mod posix;
#[cfg(test)]
mod row;
#[cfg(test)]
mod runs;
#[cfg(test)]
mod saved_runs;
#[cfg(test)]
mod snapshots;
#[cfg(test)]
mod watch;
#[cfg(test)]
mod worlds;
