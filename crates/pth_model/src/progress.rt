//! How far a thread is in its program.

use crate::blocked::Blocked;
use pth_base::answer::Answer;

/// How far a thread is in its program: where it stands in its body, the answer that is not yet handed over to it, and the
/// call that blocks it, if any.
#[derive(Drop)]
pub struct Progress<S> {
    pub state: S,
    pub owed: Answer,
    pub blocked: Option<Blocked>,
}
