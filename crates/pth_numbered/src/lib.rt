//! Things that are numbered upwards from 1 and found by their numbers.
//!
//! For things of every type: a thing's number leads to its slot and back. A new thing has the next number, so none
//! is given twice, and a slot below the limit that was not in use. There are at most as many things as the limit,
//! which is at most 4,096: `add` answers `TooMany` exactly if there are so many, and refused it changes nothing. A
//! change changes one thing, and `numbers` lists the numbers of all things, rising. Operands of calls are numbers
//! too (`specs/Operands.antt`): a negative one names nothing.
#![tactic(auto)]

pub mod error;
pub mod numbered;
