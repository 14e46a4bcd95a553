//! The program as one call, over the objects that it is handed.
//!
//! With status 0, 1, 2, 3 and 6 `play` has written exactly the text of the one output that the definitions give for
//! the words and the bytes of the object read, with that output's status (`IsOutput`,
//! `every_input_has_one_output`). It comes to 4 or 5 only if the object read or the output failed. No clause keeps
//! it from 7, which says that memory ran out; then nothing or a beginning of the text was written.
//! `play` is a filter (`pth_filter`), and `specs/Play.antt` says fact by fact what else holds by the status. If an object tells no bytes, nothing is said
//! of them.
#![tactic(auto)]

mod done;
pub mod drive;
mod faults;
pub mod laws;
mod run;
mod script;
mod streams;
mod top;

pub use top::{PROGRAM, play};
