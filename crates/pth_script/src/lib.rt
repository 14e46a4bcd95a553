//! Scripts: their text, and the program that they are.
//!
//! Unless memory runs out, `read` gives a script, a kernel and a greatest base priority for which the text stands if no line breaks a
//! rule or a limit, and else the first line that does, or the place after the last line, with the first rule that is broken
//! there. Each rule is a predicate on the whole text and the number of a line (`specs/Broken.antt`). Every text is
//! accepted or refused, and not both, and has at most one script, one kernel, one priority and one refusal
//! (`every_text_has_one_meaning`). `upgrade` gives the text that stands for the same in version 2.
#![tactic(auto)]

mod body;
mod draft;
pub mod generate;
mod heading;
mod kernel_draft;
pub mod laws;
pub mod limits;
pub mod read;
mod reader;
mod rows;
pub mod upgrade;

pub use pth_line::script::Script;
pub use pth_text::rule::Rule;
