//! Walks round rings.

/// The direction of a walk round a ring, and whether it goes on to an event that occurred.
#[derive(Clone, Copy)]
pub struct Direction {
    pub forward: bool,
    pub until_occurred: bool,
}
