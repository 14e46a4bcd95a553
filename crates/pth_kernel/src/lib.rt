//! A recorded kernel: what comes to descriptors and when, and what threads have taken of it.
//!
//! A trace is a list of stamps. `Trace::first_fault` is the first stamp that breaks a rule, by itself or by those
//! above it, and `Rules` answers each rule's test for the next stamp without a look at those above.
//! A `Kernel` is made of a trace without a fault. Each question equals a filter of the whole trace up to now, less
//! what threads took (`specs/Kernel.antt`), and each change is its definition's. `next_entry` is the least later
//! moment at which something comes. Only `new` and `take` need memory; refused, `take` changes nothing.
#![tactic(auto)]

mod arrived;
mod channel;
mod channels;
pub mod kernel;
pub mod rules;
pub mod trace;
