//! Rings that begin, become one, lose an event and end.

ghost use Rattle.std.specs.Prelude.{◌≡◌, ◌≢◌, ◌+◌, ◌↔◌, ◌<◌, [], ◌∷◌, false, IfOk, OnOk, OnErr, IsErrOf, option_map};
ghost use Rattle.pth_numbered.specs.Numbered.{number_at, count};
ghost use Rattle.pth_ring.specs.Ring.{ring_holds, rest_of, head_event};
ghost use Rattle.pth_ring.specs.Rings.{event_id, concatenated, isolated, ring_freed};
ghost use Rattle.pth_ring.specs.Arena.{events_of, AreLinked, Becomes, IsMade, IsChained, IsDropped, IsFreed};

use crate::event::{Event, EventSpec, RingNode, Status};
use crate::node::{Node, id_of, next_of, set_next, set_prev, splice};
use pth_base::ids::{EventId, Slot};
use pth_numbered::error::AddErr;
use pth_numbered::numbered::Numbered;

// A new event, which stands alone.
pub(crate) fn insert_alone(
    nodes: &mut Numbered<Node>,
    spec: EventSpec,
) -> Result<(EventId, Slot), AddErr>
    requires kept { AreLinked nodes.old }
    requires few { nodes.old.made < 4294967295 }
    ensures id { IfOk result (λ p. p.0.0 ≡ nodes.old.made + 1) }
    ensures ok { IfOk result (λ p. IsMade nodes.old nodes.new p.1.0 spec) }
    ensures too_many { IsErrOf result AddErr.TooMany ↔ (count nodes.old ≡ nodes.old.limit) }
    ensures err { OnErr result (nodes.new ≡ nodes.old) }
{
    let id = EventId(nodes.made() + 1);
    let event = Event {
        spec,
        status: Status::Pending,
        next_look: 0,
        claim: None,
    };
    let (_, slot) = nodes.add(Node {
        id,
        prev: Slot(0),
        next: Slot(0),
        ring: RingNode { prev: id, next: id },
        event,
    })?;
    set_next(nodes, slot, slot);
    set_prev(nodes, slot, slot);
    Ok((id, slot))
}

// Two rings become one, read from a and then from b.
pub(crate) fn join_rings(nodes: &mut Numbered<Node>, a: Slot, b: Slot)
    requires kept { AreLinked nodes.old }
    requires a { number_at nodes.old a.0 ≢ 0 }
    requires b { number_at nodes.old b.0 ≢ 0 }
    requires apart { ring_holds (number_at nodes.old a.0) ((events_of nodes.old).rings (number_at nodes.old b.0)) ≡ false }
    ensures { Becomes nodes.old nodes.new (concatenated (number_at nodes.old a.0) (number_at nodes.old b.0) (events_of nodes.old)) }
{
    splice(nodes, a, b);
}

// A new event just before e.
pub(crate) fn insert_before(
    nodes: &mut Numbered<Node>,
    spec: EventSpec,
    e: Slot,
) -> Result<EventId, AddErr>
    requires kept { AreLinked nodes.old }
    requires few { nodes.old.made < 4294967295 }
    requires used { number_at nodes.old e.0 ≢ 0 }
    ensures id { IfOk result (λ n. n.0 ≡ nodes.old.made + 1) }
    ensures ok { OnOk result (IsChained nodes.old nodes.new spec (number_at nodes.old e.0)) }
    ensures too_many { IsErrOf result AddErr.TooMany ↔ (count nodes.old ≡ nodes.old.limit) }
    ensures err { OnErr result (nodes.new ≡ nodes.old) }
{
    let (id, slot) = insert_alone(nodes, spec)?;
    join_rings(nodes, e, slot);
    Ok(id)
}

// Takes e out of its ring, and answers the next one of the rest.
pub(crate) fn part(nodes: &mut Numbered<Node>, e: Slot) -> Option<EventId>
    requires kept { AreLinked nodes.old }
    requires used { number_at nodes.old e.0 ≢ 0 }
    ensures parted { Becomes nodes.old nodes.new (isolated (number_at nodes.old e.0) (events_of nodes.old)) }
    ensures next { result ≡ option_map event_id (head_event (rest_of ((events_of nodes.old).rings (number_at nodes.old e.0)))) }
{
    let next = next_of(nodes, e);
    if next.0 == e.0 {
        return None;
    }
    let id = id_of(nodes, next);
    splice(nodes, e, next);
    Some(id)
}

// An event that stands alone goes.
pub(crate) fn remove_alone(nodes: &mut Numbered<Node>, e: Slot)
    requires kept { AreLinked nodes.old }
    requires used { number_at nodes.old e.0 ≢ 0 }
    requires alone { (events_of nodes.old).rings (number_at nodes.old e.0) ≡ number_at nodes.old e.0 ∷ [] }
    ensures { IsDropped nodes.old nodes.new e.0 }
{
    let _node = nodes.remove(e);
}

// Takes e out of its ring and frees it.
pub(crate) fn free_one(nodes: &mut Numbered<Node>, e: Slot)
    requires kept { AreLinked nodes.old }
    requires used { number_at nodes.old e.0 ≢ 0 }
    ensures { IsFreed nodes.old nodes.new e.0 }
{
    let _next = part(nodes, e);
    remove_alone(nodes, e);
}

// Frees each event of the ring.
pub(crate) fn free_all(nodes: &mut Numbered<Node>, e: Slot)
    requires kept { AreLinked nodes.old }
    requires used { number_at nodes.old e.0 ≢ 0 }
    ensures kept { AreLinked nodes.new }
    ensures events { events_of nodes.new ≡ ring_freed (number_at nodes.old e.0) (events_of nodes.old) }
{
    'round: loop {
        let next = next_of(nodes, e);
        free_one(nodes, next);
        if next.0 == e.0 {
            return;
        }
    }
}
