//! Laws of the marks of whole runs, for every program and every kernel. No running code stands on them.
//!
//! Five laws speak of any list of marks, also of one that no run tells: marks are orderly (`specs/Orderly.antt`), exclusive
//! (`specs/Exclusive.antt`), of what was initialised (`specs/Initialised.antt`), in order (`specs/InOrder.antt`), and in time
//! (`specs/InTime.antt`). Each is said in sentences on a mark, and but for the last on the marks before it. The marks of every run keep all
//! five (`every_run_is_orderly`, `every_run_is_exclusive`, `every_run_initialises`, `every_run_is_in_order`, `every_run_is_in_time`). If no
//! `pth_kill` ended the run, its state fits its marks (`every_run_is_tied`), and no claim, mutex, lock, arrival at a barrier or seat at a
//! condition is that of a thread that does not live; an event has a seat only at its own condition, and only while a thread claims its ring
//! (`every_run_is_clean`).
//!
//! Laws of states alone (`states`) say of every run, also of one that a `pth_kill` ended, in which range base priorities are, who has
//! claims on rings, holds of locks, arrivals at barriers and seats at conditions, and for what threads wait. A call that is refused
//! changes nothing (`refusals`).
//!
//! `MeetsRunLaws` (`specs/RunLaws.antt`) states the five laws of marks, and those of the state to which they led, as one record. `laws`
//! promises it of every run. `Machine::advance`, `Machine::turn` and `play` promise it of the run that they make.
#![tactic(auto)]

pub mod destructors;
pub mod exclusive;
pub mod in_order;
pub mod in_time;
pub mod initialised;
pub mod orderly;
pub mod refusals;
pub mod runs;
pub mod states;
