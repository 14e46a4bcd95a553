//! A slot of the ready queue whose place is known without a walk.

ghost use Rattle.std.specs.Prelude.{◌≡◌, Some, IfSome};
ghost use Rattle.pth_tables.specs.Marks.{EntersBehind, LeavesInFront};

use pth_base::ids::Slot;
use pth_queue::queue::Queue;
use pth_queue::queue_set::QueueSet;

/// A slot of the ready queue, and how many stand before it.
#[derive(Clone, Copy)]
pub struct Mark {
    pub slot: Slot,
    pub place: u32,
}

/// What is left of a mark once a slot has entered a queue: all of it if the slot stands behind all that are ready, else nothing.
pub fn after_entry(mark: Option<Mark>, queues: &QueueSet, q: Queue, s: Slot) -> Option<Mark>
    ensures kept { IfSome result (λ m. mark ≡ Some m) }
    ensures behind { IfSome result (λ m. EntersBehind q s.0 queues.now) }
{
    match q {
        Queue::Ready => if_last(mark, queues, s),
        Queue::New | Queue::Waiting | Queue::Suspended | Queue::Dead => mark,
    }
}

// The mark, if the slot is the last of the ready queue.
fn if_last(mark: Option<Mark>, queues: &QueueSet, s: Slot) -> Option<Mark>
    ensures kept { IfSome result (λ m. mark ≡ Some m) }
    ensures behind { IfSome result (λ m. EntersBehind Queue.Ready s.0 queues.now) }
{
    let at = mark?;
    let last = queues.tail(Queue::Ready)?;
    if last.0 == s.0 { Some(at) } else { None }
}

/// What is left of a mark as a slot leaves its queue, if it is in one: the place before it if the slot is the head of the ready
/// queue, all of it if the slot is not ready, else nothing.
pub fn after_leaving(
    mark: Option<Mark>,
    queues: &QueueSet,
    q: Option<Queue>,
    s: Slot,
) -> Option<Mark>
    ensures { IfSome result (LeavesInFront q s.0 queues.now mark) }
{
    match q {
        Some(Queue::Ready) => after_head(mark, queues, s),
        Some(Queue::New | Queue::Waiting | Queue::Suspended | Queue::Dead) | None => mark,
    }
}

// The place before the mark, if the slot is the head of the ready queue.
fn after_head(mark: Option<Mark>, queues: &QueueSet, s: Slot) -> Option<Mark>
    ensures { IfSome result (LeavesInFront (Some Queue.Ready) s.0 queues.now mark) }
{
    let at = mark?;
    let head = queues.head(Queue::Ready)?;
    if head.0 != s.0 || at.place == 0 {
        return None;
    }
    Some(Mark {
        slot: at.slot,
        place: at.place - 1,
    })
}
