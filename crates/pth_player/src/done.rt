//! What is done with a script.

use pth_base::outcome::Outcome;

/// What was done with the text of a script.
#[derive(Clone, Copy)]
pub enum Done {
    /// It was run to this outcome, and what the words ask for of the run was written.
    Ran(Outcome),
    /// It was written in version 2, and not run (`--upgrade`).
    Upgraded,
}
