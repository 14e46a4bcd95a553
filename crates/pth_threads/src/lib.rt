//! The threads in the system: a record of each by its slot, and an index from numbers to slots. Beside them their
//! attribute objects.
//!
//! `Threads`: a thread's number leads to its record, in which it stands; a new thread has the next number, and
//! there are at most 4,096. A change sets one field of one record. Refused, `add` changes no record, number or
//! count.
//! `Attrs`: each call is answered as the tests of its definition say, in their order (`specs/Attributes.antt`). It
//! changes one object, or if the object is bound to a thread, one field of this thread's record; refused, it
//! changes nothing. An object that is not bound has a priority from -N to N, with the N of the run, and a cancel state from 1 to 4.
#![tactic(auto)]

pub mod attribute;
pub mod attrs;
pub mod entry;
mod fields;
pub mod threads;
