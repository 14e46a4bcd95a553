//! What threads store, by slot: values under keys, and stacks of cleanup handlers.
//!
//! Each call is one equation of the whole tables, and is answered as its tests in order say. Refused, it leaves the
//! tables. `Keys`: `create` makes the least free key live, with each slot's value under it 0, and is answered
//! EAGAIN exactly if all 256 are live; `delete`, `set` and `get` are answered ENOENT exactly if the key is not
//! live. `first_live` is the first key from a number on that has a destructor and a value that is not 0.
//! `Cleanups`: `push` is answered EAGAIN exactly if the stack has 256 handlers. Only `set` and `push` take memory.
#![tactic(auto)]

pub mod cleanups;
pub mod keys;
