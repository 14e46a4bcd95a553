//! Nodes, and the writes that link them.
//!
//! A node keeps its neighbours' numbers next to their places, so that `Rings::node` lends the node that is kept.

ghost use Rattle.std.specs.Prelude.{◌≡◌, ◌≢◌, Some};
ghost use Rattle.pth_base.specs.Table.{put};
ghost use Rattle.pth_numbered.specs.Numbered.{number_at, thing_at};
ghost use Rattle.pth_ring.specs.Links.{next_place, prev_place, next_id, prev_id, id_at, event_at, Splices};
ghost use Rattle.pth_ring.specs.Nodes.{ring_node};
ghost use Rattle.pth_ring.specs.Arena.{events_of, AreLinked, SamePlaces};

use crate::event::{Event, RingNode};
use pth_base::ids::{EventId, Slot};
use pth_numbered::numbered::Numbered;

// An event with its number, and the places and the numbers of its neighbours.
#[derive(Clone, Copy)]
pub(crate) struct Node {
    pub(crate) id: EventId,
    pub(crate) prev: Slot,
    pub(crate) next: Slot,
    pub(crate) ring: RingNode,
    pub(crate) event: Event,
}

// The place after.
pub(crate) fn next_of(nodes: &Numbered<Node>, e: Slot) -> Slot
    requires { number_at nodes.now e.0 ≢ 0 }
    ensures { result.0 ≡ next_place (thing_at nodes.now) e.0 }
{
    nodes.get(e).next
}

// The place before.
pub(crate) fn prev_of(nodes: &Numbered<Node>, e: Slot) -> Slot
    requires { number_at nodes.now e.0 ≢ 0 }
    ensures { result.0 ≡ prev_place (thing_at nodes.now) e.0 }
{
    nodes.get(e).prev
}

// The event at a place.
pub(crate) fn event_of(nodes: &Numbered<Node>, e: Slot) -> &Event
    requires { number_at nodes.now e.0 ≢ 0 }
    ensures { event_at (thing_at nodes.now) e.0 ≡ Some result.now }
{
    &nodes.get(e).event
}

// Its number.
pub(crate) fn id_of(nodes: &Numbered<Node>, e: Slot) -> EventId
    requires used { number_at nodes.now e.0 ≢ 0 }
    requires kept { AreLinked nodes.now }
    ensures { result.0 ≡ number_at nodes.now e.0 }
{
    nodes.get(e).id
}

// The numbers of its neighbours.
pub(crate) fn ring_node_of(nodes: &Numbered<Node>, e: Slot) -> &RingNode
    requires used { number_at nodes.now e.0 ≢ 0 }
    requires kept { AreLinked nodes.now }
    ensures { ring_node (events_of nodes.now) (number_at nodes.now e.0) ≡ Some result.now }
{
    &nodes.get(e).ring
}

pub(crate) fn set_next(nodes: &mut Numbered<Node>, e: Slot, to: Slot)
    requires e { number_at nodes.old e.0 ≢ 0 }
    requires to { number_at nodes.old to.0 ≢ 0 }
    ensures next { next_place (thing_at nodes.new) ≡ put (next_place (thing_at nodes.old)) e.0 to.0 }
    ensures next_id { next_id (thing_at nodes.new) ≡ put (next_id (thing_at nodes.old)) e.0 (id_at (thing_at nodes.old) to.0) }
    ensures prev { prev_place (thing_at nodes.new) ≡ prev_place (thing_at nodes.old) }
    ensures prev_id { prev_id (thing_at nodes.new) ≡ prev_id (thing_at nodes.old) }
    ensures event { event_at (thing_at nodes.new) ≡ event_at (thing_at nodes.old) }
    ensures places { SamePlaces nodes.old nodes.new }
{
    let id = nodes.get(to).id;
    let node = nodes.get_mut(e);
    node.next = to;
    node.ring.next = id;
}

pub(crate) fn set_prev(nodes: &mut Numbered<Node>, e: Slot, to: Slot)
    requires e { number_at nodes.old e.0 ≢ 0 }
    requires to { number_at nodes.old to.0 ≢ 0 }
    ensures next { next_place (thing_at nodes.new) ≡ next_place (thing_at nodes.old) }
    ensures next_id { next_id (thing_at nodes.new) ≡ next_id (thing_at nodes.old) }
    ensures prev { prev_place (thing_at nodes.new) ≡ put (prev_place (thing_at nodes.old)) e.0 to.0 }
    ensures prev_id { prev_id (thing_at nodes.new) ≡ put (prev_id (thing_at nodes.old)) e.0 (id_at (thing_at nodes.old) to.0) }
    ensures event { event_at (thing_at nodes.new) ≡ event_at (thing_at nodes.old) }
    ensures places { SamePlaces nodes.old nodes.new }
{
    let id = nodes.get(to).id;
    let node = nodes.get_mut(e);
    node.prev = to;
    node.ring.prev = id;
}

// Four writes: two rings become one, and one that has both becomes two.
pub(crate) fn splice(nodes: &mut Numbered<Node>, a: Slot, b: Slot)
    requires a { number_at nodes.old a.0 ≢ 0 }
    requires b { number_at nodes.old b.0 ≢ 0 }
    requires prev_a { number_at nodes.old (prev_place (thing_at nodes.old) a.0) ≢ 0 }
    requires prev_b { number_at nodes.old (prev_place (thing_at nodes.old) b.0) ≢ 0 }
    ensures links { Splices (thing_at nodes.old) (thing_at nodes.new) a.0 b.0 }
    ensures places { SamePlaces nodes.old nodes.new }
{
    let prev_a = prev_of(nodes, a);
    let prev_b = prev_of(nodes, b);
    set_next(nodes, prev_a, b);
    set_next(nodes, prev_b, a);
    set_prev(nodes, b, prev_a);
    set_prev(nodes, a, prev_b);
}
