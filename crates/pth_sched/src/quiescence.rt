//! What is known of the waiting threads, so that a pass need not scan them.
//!
//! Quiescence is said of threads whose records say that they wait. Said of queue rows, each entry would be a proof on lists.

use pth_base::ids::Micros;

/// Before the moment `until` no waiting thread but the running one is to wake, if nothing changes but time; 0 if no such moment is
/// known. If `dirty`, the end of this turn does not look for such a moment: after a step of this turn none is known, or the end of
/// the turn before looked for one in vain.
#[derive(Clone, Copy)]
pub struct Quiescence {
    pub until: Micros,
    pub dirty: bool,
}
