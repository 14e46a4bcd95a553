//! What an attempt at a call comes to.

use crate::awaits::Awaits;
use pth_base::answer::Answer;

/// What an attempt at a call comes to.
#[derive(Drop)]
pub enum Verdict {
    /// The call is answered, and its thread goes on.
    Says(Answer),
    /// It is answered, and its thread gives up control.
    Yields(Answer),
    /// It blocks its thread, which waits for this.
    Blocks(Awaits),
    /// Its thread ends with a value.
    Ends(i64),
    /// The run ends.
    Kills,
}
