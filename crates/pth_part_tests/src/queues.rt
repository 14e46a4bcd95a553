//! Queues after changes: the slots of a queue in order, and the nodes of the first slots.

ghost use Rattle.std.specs.Prelude.{◌≡◌, ◌≤◌};

use crate::comparison::same_text;
use Turn::{Delete, Enter, First, Raise};
use pth_base::ids::Slot;
use pth_base::memory::OutOfMemory;
use pth_queue::node::Node;
use pth_queue::queue::Queue;
use pth_queue::queue_set::QueueSet;
use std::alloc::{AllocError, Global};
use std::process::Abort;
use std::test::Fail;

/// The greatest base priority.
const TOP: u8 = 20;

/// What is done to queues. Each change tests first what its call requires.
#[derive(Clone, Copy)]
enum Turn {
    Enter(Queue, i64, u32),
    First(Queue),
    Delete(u32),
    Raise(Queue),
}

/// Enters a slot.
fn put(rt: &impl Abort, set: &mut QueueSet, queue: Queue, rank: i64, slot: Slot)
    requires { 8 ≤ set.old.room }
{
    assert!(rt; slot.0 < 8);
    assert!(rt; -10 < rank && rank < 10);
    assert!(rt; set.queue_of(slot).is_none());
    set.insert(queue, rank, slot);
}

fn enter(
    rt: &impl Abort,
    set: &mut QueueSet,
    queue: Queue,
    rank: i64,
    slot: u32,
) -> Result<(), OutOfMemory> {
    set.reserve(8)?;
    put(rt, set, queue, rank, Slot(slot));
    Ok(())
}

/// Takes a slot out of the ready queue.
fn delete(rt: &impl Abort, set: &mut QueueSet, slot: Slot) {
    assert!(rt; set.queue_of(slot).is_some());
    assert!(rt; matches!(set.delete(slot), Queue::Ready));
}

fn raise(rt: &impl Abort, set: &mut QueueSet, queue: Queue) {
    assert!(rt; set.favour_top(queue) < 100);
    set.increase(queue);
}

fn change(rt: &impl Abort, set: &mut QueueSet, turn: Turn) -> Result<(), OutOfMemory> {
    match turn {
        Turn::Enter(queue, rank, slot) => enter(rt, set, queue, rank, slot)?,
        Turn::First(queue) => {
            let _first = set.delmax(queue);
        }
        Turn::Delete(slot) => delete(rt, set, Slot(slot)),
        Turn::Raise(queue) => raise(rt, set, queue),
    }
    Ok(())
}

/// Queues after these changes.
fn queues_after(rt: &impl Abort, alloc: Global, turns: &[Turn]) -> Result<QueueSet, OutOfMemory> {
    let mut set = QueueSet::new(alloc, TOP);
    for turn in turns {
        change(rt, &mut set, *turn)?;
    }
    Ok(set)
}

/// The number of a slot, and -1 for none.
fn slot_number(slot: Option<Slot>) -> i64 {
    match slot {
        Some(slot) => i64::from(slot.0),
        None => -1,
    }
}

fn tell_place(
    text: &mut String,
    slot: Slot,
    place: Option<(Queue, i64, u32)>,
) -> Result<(), AllocError> {
    match place {
        Some((_, rank, place)) => write!(text, "{} at {rank} {place}, ", slot.0),
        None => text.push_str("nowhere, "),
    }
}

/// Adds the slots of a queue, each with its rank and place, by a walk from the head; then its tail, and the rank above all.
fn tell_queue(text: &mut String, set: &QueueSet, queue: Queue) -> Result<(), AllocError> {
    let mut at = set.head(queue);
    for _ in 0..9 {
        let Some(slot) = at else {
            break;
        };
        tell_place(text, slot, set.place_of(slot))?;
        at = set.after(slot);
    }
    let tail = slot_number(set.tail(queue));
    write!(text, "to {tail} below {}; ", set.favour_top(queue))
}

/// Adds a node's fields, each under its name: the one before, the one after and the gap.
fn tell_node(text: &mut String, node: &Node) -> Result<(), AllocError> {
    let Node { prev, next, gap } = node;
    write!(text, "{} {} {gap}, ", prev.0, next.0)
}

/// Adds the nodes of slots 0 to 2, and `-` for one that stands nowhere.
fn tell_nodes(text: &mut String, set: &QueueSet) -> Result<(), AllocError> {
    for s in 0..3 {
        match set.node(Slot(s)) {
            Some(node) => tell_node(text, node)?,
            None => text.push_str("-, ")?,
        }
    }
    Ok(())
}

/// Changes of the ready queue, and how it stands after them.
static ROWS: [(&[Turn], &str); 7] = [
    // gaps are distances of ranks
    (
        &[
            Enter(Queue::Ready, 1, 1),
            Enter(Queue::Ready, 1, 2),
            Enter(Queue::Ready, 3, 0),
        ],
        "0 at 3 0, 1 at 1 1, 2 at 1 2, to 2 below 4; 2 1 3, 0 2 2, 1 0 0, ",
    ),
    // a raise changes the head alone
    (
        &[
            Enter(Queue::Ready, 1, 1),
            Enter(Queue::Ready, 1, 2),
            Enter(Queue::Ready, 3, 0),
            Raise(Queue::Ready),
        ],
        "0 at 4 0, 1 at 2 1, 2 at 2 2, to 2 below 5; 2 1 4, 0 2 2, 1 0 0, ",
    ),
    // the next takes the gap of a head that leaves
    (
        &[
            Enter(Queue::Ready, 1, 1),
            Enter(Queue::Ready, 1, 2),
            Enter(Queue::Ready, 3, 0),
            Raise(Queue::Ready),
            First(Queue::Ready),
        ],
        "1 at 2 0, 2 at 2 1, to 2 below 3; -, 2 2 2, 1 1 0, ",
    ),
    // so it does where the head is deleted
    (
        &[
            Enter(Queue::Ready, 3, 0),
            Enter(Queue::Ready, 1, 1),
            Enter(Queue::Ready, 1, 2),
            Raise(Queue::Ready),
            Delete(0),
        ],
        "1 at 2 0, 2 at 2 1, to 2 below 3; -, 2 2 2, 1 1 0, ",
    ),
    (
        &[
            Enter(Queue::Ready, 0, 0),
            Enter(Queue::Ready, -3, 1),
            Enter(Queue::Ready, 0, 2),
            Raise(Queue::Ready),
        ],
        "0 at 1 0, 2 at 1 1, 1 at -2 2, to 1 below 2; 1 2 1, 2 0 3, 0 1 0, ",
    ),
    (
        &[
            Enter(Queue::Ready, 6, 0),
            Enter(Queue::Ready, 5, 1),
            First(Queue::Ready),
        ],
        "1 at 5 0, to 1 below 6; -, 1 1 5, -, ",
    ),
    // above a queue that has become empty stands the greatest base priority
    (
        &[Enter(Queue::Ready, 6, 0), First(Queue::Ready)],
        "to -1 below 20; -, -, -, ",
    ),
];

/// Adds how the ready queue stands.
fn tell_ready(text: &mut String, set: &QueueSet) -> Result<(), AllocError> {
    tell_queue(text, set, Queue::Ready)?;
    tell_nodes(text, set)
}

fn stand(rt: &impl Abort, alloc: Global, rows: &[(&[Turn], &str)]) -> Result<(), Fail> {
    for (turns, wanted) in rows {
        let set = queues_after(rt, alloc, turns)?;
        let mut text = String::new(alloc);
        tell_ready(&mut text, &set)?;
        same_text(rt, text.as_str(), wanted);
    }
    Ok(())
}

#[test]
fn nodes_keep_ranks_and_order(rt: HostRuntime) -> Result<(), Fail> {
    stand(&rt, rt.alloc(), &ROWS)
}
