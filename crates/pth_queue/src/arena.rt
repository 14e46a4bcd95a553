//! The nodes behind a set of queues.
//!
//! The first five nodes are the queues' sentinel nodes, which belong to no slot: `gap` says there how far the head stands above
//! the tail, so that the tail's rank is known without a walk. The nodes of the slots follow.

ghost use Rattle.std.specs.Prelude.{◌≡◌, ◌-◌, ◌<◌, ◌++◌, ◌^◌, ◌<ℤ◌, ◌+ℤ◌, pos, length, replicate, option_map, OnOk, OnErr};
ghost use Rattle.pth_queue.specs.Arena.{HasArenaNode, arena_node_of, blank, gap_at, gone, home_at, kept_node, linked, next_at, prev_at, put_arena_node, sentinel_place, slot_place, span_at, unlinked, with_gap, with_next, with_prev, with_span};

use crate::node::Node;
use crate::queue::Queue;
use pth_base::ids::Slot;
use std::alloc::AllocError;

/// A slot's node, and the queue to which the slot belongs. Without a queue the node says nothing.
#[derive(Clone, Copy)]
pub struct ArenaNode {
    pub node: Node,
    pub queue: Option<Queue>,
}

/// The index of a slot's node.
pub fn place(s: Slot) -> usize
    ensures { result ≡ slot_place s.0 }
{
    s.0 as usize + 5
}

/// The index of a queue's sentinel node.
pub fn queue_place(q: Queue) -> usize
    ensures { result ≡ sentinel_place q }
{
    match q {
        Queue::New => 0,
        Queue::Ready => 1,
        Queue::Waiting => 2,
        Queue::Suspended => 3,
        Queue::Dead => 4,
    }
}

// A node of no queue.
fn blank() -> ArenaNode
    ensures { result ≡ blank }
{
    let node = Node {
        prev: Slot(0),
        next: Slot(0),
        gap: 0,
    };
    ArenaNode { node, queue: None }
}

/// Adds blank nodes until there are `wanted`.
pub fn grow(arena: &mut Vec<ArenaNode>, wanted: usize) -> Result<(), AllocError>
    ensures ok { OnOk result (arena.new.items ≡ arena.old.items ++ replicate (wanted - length arena.old.items) blank) }
    ensures err { OnErr result (arena.new.items ≡ arena.old.items) }
{
    if arena.len() < wanted {
        return arena.resize(wanted, blank());
    }
    Ok(())
}

/// The slot after one.
pub fn next_of(arena: &Vec<ArenaNode>, s: Slot) -> Slot
    requires { HasArenaNode s.0 arena.now.items }
    ensures { result.0 ≡ next_at arena.now.items s.0 }
{
    arena[place(s)].node.next
}

/// The slot before one.
pub fn prev_of(arena: &Vec<ArenaNode>, s: Slot) -> Slot
    requires { HasArenaNode s.0 arena.now.items }
    ensures { result.0 ≡ prev_at arena.now.items s.0 }
{
    arena[place(s)].node.prev
}

/// How far the one before stands above a slot. The head's gap is its rank.
pub fn gap_of(arena: &Vec<ArenaNode>, s: Slot) -> i64
    requires { HasArenaNode s.0 arena.now.items }
    ensures { result ≡ gap_at arena.now.items s.0 }
{
    arena[place(s)].node.gap
}

/// The queue to which a slot belongs.
pub fn home_of(arena: &Vec<ArenaNode>, s: Slot) -> Option<Queue>
    ensures { result ≡ home_at arena.now.items s.0 }
{
    match arena.get(place(s)) {
        Some(arena_node) => arena_node.queue,
        None => None,
    }
}

/// The node of a slot that belongs to a queue.
pub fn node_of(arena: &Vec<ArenaNode>, s: Slot) -> Option<&Node>
    ensures { option_map (λ n. n.now) result ≡ kept_node arena.now.items s.0 }
{
    match arena.get(place(s)) {
        Some(arena_node) => match arena_node.queue {
            Some(_) => Some(&arena_node.node),
            None => None,
        },
        None => None,
    }
}

/// How far the head of a queue stands above its tail.
pub fn span_of(arena: &Vec<ArenaNode>, q: Queue) -> i64
    requires { sentinel_place q < length arena.now.items }
    ensures { result ≡ span_at arena.now.items q }
{
    arena[queue_place(q)].node.gap
}

/// Writes a slot's gap.
pub fn set_gap(arena: &mut Vec<ArenaNode>, s: Slot, gap: i64)
    requires { HasArenaNode s.0 arena.old.items }
    ensures { arena.new.items ≡ with_gap s.0 gap arena.old.items }
{
    arena[place(s)].node.gap = gap;
}

/// Writes how far the head of a queue stands above its tail.
pub fn set_span(arena: &mut Vec<ArenaNode>, q: Queue, span: i64)
    requires { sentinel_place q < length arena.old.items }
    ensures { arena.new.items ≡ with_span q span arena.old.items }
{
    arena[queue_place(q)].node.gap = span;
}

/// Adds one to a slot's gap: for a head that raises each rank of its queue.
pub fn raise_gap(arena: &mut Vec<ArenaNode>, s: Slot)
    requires within { HasArenaNode s.0 arena.old.items }
    requires low { gap_at arena.old.items s.0 <ℤ pos (2 ^ 40) }
    ensures { arena.new.items ≡ with_gap s.0 (gap_at arena.old.items s.0 +ℤ pos 1) arena.old.items }
{
    arena[place(s)].node.gap += 1;
}

fn set_next(arena: &mut Vec<ArenaNode>, s: Slot, next: Slot)
    requires { HasArenaNode s.0 arena.old.items }
    ensures { arena.new.items ≡ with_next s.0 next.0 arena.old.items }
{
    arena[place(s)].node.next = next;
}

fn set_prev(arena: &mut Vec<ArenaNode>, s: Slot, prev: Slot)
    requires { HasArenaNode s.0 arena.old.items }
    ensures { arena.new.items ≡ with_prev s.0 prev.0 arena.old.items }
{
    arena[place(s)].node.prev = prev;
}

/// A slot belongs to no queue.
pub fn leave(arena: &mut Vec<ArenaNode>, s: Slot)
    requires { HasArenaNode s.0 arena.old.items }
    ensures { arena.new.items ≡ gone s.0 arena.old.items }
{
    arena[place(s)].queue = None;
}

fn put(arena: &mut Vec<ArenaNode>, s: Slot, arena_node: ArenaNode)
    requires { HasArenaNode s.0 arena.old.items }
    ensures { arena.new.items ≡ put_arena_node arena.old.items s.0 arena_node }
{
    arena[place(s)] = arena_node;
}

/// Makes a slot a circle of its own.
pub fn put_alone(arena: &mut Vec<ArenaNode>, queue: Queue, rank: i64, s: Slot)
    requires { HasArenaNode s.0 arena.old.items }
    ensures { arena.new.items ≡ put_arena_node arena.old.items s.0 (arena_node_of s.0 s.0 rank queue) }
{
    let node = Node {
        prev: s,
        next: s,
        gap: rank,
    };
    let queue = Some(queue);
    put(arena, s, ArenaNode { node, queue });
}

/// Puts a slot into the circle before another. That one's gap is left as it is.
pub fn link(arena: &mut Vec<ArenaNode>, s: Slot, next: Slot, gap: i64, queue: Queue)
    requires own { HasArenaNode s.0 arena.old.items }
    requires next { HasArenaNode next.0 arena.old.items }
    requires prev { HasArenaNode (prev_at arena.old.items next.0) arena.old.items }
    ensures { arena.new.items ≡ linked s.0 next.0 gap queue arena.old.items }
{
    let prev = prev_of(arena, next);
    let node = Node { prev, next, gap };
    let queue = Some(queue);
    put(arena, s, ArenaNode { node, queue });
    set_next(arena, prev, s);
    set_prev(arena, next, s);
}

/// Takes a slot out of its circle. The next one's gap is left as it is.
pub fn unlink(arena: &mut Vec<ArenaNode>, s: Slot)
    requires own { HasArenaNode s.0 arena.old.items }
    requires next { HasArenaNode (next_at arena.old.items s.0) arena.old.items }
    requires prev { HasArenaNode (prev_at arena.old.items s.0) arena.old.items }
    ensures { arena.new.items ≡ unlinked s.0 arena.old.items }
{
    let prev = prev_of(arena, s);
    let next = next_of(arena, s);
    leave(arena, s);
    set_next(arena, prev, next);
    set_prev(arena, next, prev);
}
