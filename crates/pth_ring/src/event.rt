//! What is kept of an event.

pub use pth_base::event::EventSpec;
use pth_base::ids::{EventId, Micros, Tid};

/// What was found when an event was last looked at (`pth_event_status`). Each variant has the number that stands for it.
#[derive(Clone, Copy, Debug, PartialEq, Eq)]
pub enum Status {
    Pending = 0,
    Occurred = 1,
    Failed = 2,
}

/// What is kept of an event beside its place in a ring.
#[derive(Clone, Copy)]
pub struct Event {
    pub spec: EventSpec,
    pub status: Status,
    /// The moment before which it is not looked at again.
    pub next_look: Micros,
    /// The thread that waits for its ring, where it was given this event.
    pub claim: Option<Tid>,
}

/// The events before and after an event in its ring (`ev_prev` and `ev_next` of `pth_event_t`): itself where it stands alone.
#[derive(Clone, Copy)]
pub struct RingNode {
    pub prev: EventId,
    pub next: EventId,
}
