//! Up to which part two runs agree, for every program and every kernel. No running code stands on these laws.
//!
//! | the other run has | they agree up to part i if | law |
//! |---|---|---|
//! | further lines at the end of a body | no thread of that body asks for a call at its end before | `longer_scripts_agree` |
//! | another program | it gives the same whenever a thread asks for a call before | `runs_agree` |
//! | another trace | both are the same up to the moment of part i, and the run is not stalled | `later_stamps_agree` |
//! | a further descriptor that is open | no call that a thread asks for before names it | `opened_descriptors_agree` |
//!
//! The runs agree in all but what is changed: in the state, in the turn and in the marks. `example` has runs that the definitions compute:
//! up to a part the premise holds, and in that part the two differ.
#![tactic(auto)]

pub mod descriptors;
pub mod example;
pub mod runs;
pub mod scripts;
pub mod traces;
