//! Whether a transcript is lawful, and where it is not: the checker as one call, over the objects that it is handed.
//!
//! `check` is a filter (`pth_filter`): with status 0 and 1 it has written exactly the line of a verdict that holds of the whole content
//! (`IsVerdict`): it is the text of lawful marks and of an ending that fits them, or this line of it is the first that breaks a law, and the
//! lines before it break none. With 3 no line before the one that it tells breaks a law, and this one is none of a transcript
//! (`IsRefusedAt`). No other output fits the content. No clause keeps `check` from 7, which says that memory ran out. If an object tells no
//! bytes, nothing is said of them.
#![tactic(auto)]

mod help;
mod judge;
mod living;
mod run;
mod session;
mod top;
pub mod verdict;
mod words;

pub use help::HELP;
pub use top::{PROGRAM, check};
