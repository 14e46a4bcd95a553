//! What is asked of a ring.

ghost use Rattle.std.specs.Prelude.{◌≡◌, ◌≢◌, reverse, find, option_map, if◌then◌else◌};
ghost use Rattle.pth_numbered.specs.Numbered.{number_at, thing_at};
ghost use Rattle.pth_ring.specs.Ring.{ring_holds, turned_once};
ghost use Rattle.pth_ring.specs.Links.{event_at, ring};
ghost use Rattle.pth_ring.specs.Rings.{event_id, has_claim, has_occurred, is_settled, is_claimed, settled_in, candidates, walk_end};
ghost use Rattle.pth_ring.specs.Arena.{events_of, AreLinked};

use crate::event::Status;
use crate::node::{Node, event_of, id_of, next_of, prev_of};
use pth_base::ids::{EventId, Slot};
use pth_numbered::numbered::Numbered;

// 1 where the event is not pending.
fn settled_at(nodes: &Numbered<Node>, e: Slot) -> u32
    requires { number_at nodes.now e.0 ≢ 0 }
    ensures { result ≡ (if is_settled (event_at (thing_at nodes.now) e.0) then 1 else 0) }
{
    match event_of(nodes, e).status {
        Status::Pending => 0,
        Status::Occurred => 1,
        Status::Failed => 1,
    }
}

// How many events of the ring are not pending.
pub(crate) fn count_settled(nodes: &Numbered<Node>, e: Slot) -> u32
    requires kept { AreLinked nodes.now }
    requires used { number_at nodes.now e.0 ≢ 0 }
    ensures { result ≡ settled_in (events_of nodes.now) (number_at nodes.now e.0) }
{
    let mut at = e;
    let mut count = 0;
    'round: loop {
        count += settled_at(nodes, at);
        at = next_of(nodes, at);
        if at.0 == e.0 {
            return count;
        }
    }
}

fn has_claim(nodes: &Numbered<Node>, e: Slot) -> bool
    requires { number_at nodes.now e.0 ≢ 0 }
    ensures { result ≡ has_claim (event_at (thing_at nodes.now) e.0) }
{
    match event_of(nodes, e).claim {
        Some(_) => true,
        None => false,
    }
}

// Whether an event of the ring has a claim.
pub(crate) fn is_claimed(nodes: &Numbered<Node>, e: Slot) -> bool
    requires kept { AreLinked nodes.now }
    requires used { number_at nodes.now e.0 ≢ 0 }
    ensures { result ≡ is_claimed (events_of nodes.now) (number_at nodes.now e.0) }
{
    let mut at = e;
    'round: loop {
        if has_claim(nodes, at) {
            return true;
        }
        at = next_of(nodes, at);
        if at.0 == e.0 {
            return false;
        }
    }
}

// Whether a stands in the ring of e.
pub(crate) fn is_with(nodes: &Numbered<Node>, a: Slot, e: Slot) -> bool
    requires kept { AreLinked nodes.now }
    requires a { number_at nodes.now a.0 ≢ 0 }
    requires used { number_at nodes.now e.0 ≢ 0 }
    ensures { result ≡ ring_holds (number_at nodes.now a.0) ((events_of nodes.now).rings (number_at nodes.now e.0)) }
{
    let mut at = e;
    'round: loop {
        if at.0 == a.0 {
            return true;
        }
        at = next_of(nodes, at);
        if at.0 == e.0 {
            return false;
        }
    }
}

fn has_occurred(nodes: &Numbered<Node>, e: Slot) -> bool
    requires { number_at nodes.now e.0 ≢ 0 }
    ensures { result ≡ has_occurred (event_at (thing_at nodes.now) e.0) }
{
    match event_of(nodes, e).status {
        Status::Pending => false,
        Status::Occurred => true,
        Status::Failed => false,
    }
}

// The first event behind e that has occurred, e the last.
fn find_next(nodes: &Numbered<Node>, e: Slot) -> Option<Slot>
    requires kept { AreLinked nodes.now }
    requires used { number_at nodes.now e.0 ≢ 0 }
    ensures { option_map (λ (s : Slot). s.0) result ≡ find (λ y. has_occurred (event_at (thing_at nodes.now) y)) (turned_once (ring (thing_at nodes.now) e.0)) }
{
    let mut at = e;
    'round: loop {
        at = next_of(nodes, at);
        if has_occurred(nodes, at) {
            return Some(at);
        }
        if at.0 == e.0 {
            return None;
        }
    }
}

// The first event before e that has occurred, e the last.
fn find_prev(nodes: &Numbered<Node>, e: Slot) -> Option<Slot>
    requires kept { AreLinked nodes.now }
    requires used { number_at nodes.now e.0 ≢ 0 }
    ensures { option_map (λ (s : Slot). s.0) result ≡ find (λ y. has_occurred (event_at (thing_at nodes.now) y)) (reverse (ring (thing_at nodes.now) e.0)) }
{
    let mut at = e;
    'round: loop {
        at = prev_of(nodes, at);
        if has_occurred(nodes, at) {
            return Some(at);
        }
        if at.0 == e.0 {
            return None;
        }
    }
}

// The place to which a walk from e leads.
fn find_from(nodes: &Numbered<Node>, e: Slot, forward: bool, until_occurred: bool) -> Option<Slot>
    requires kept { AreLinked nodes.now }
    requires used { number_at nodes.now e.0 ≢ 0 }
    ensures { option_map (λ (s : Slot). s.0) result ≡ walk_end until_occurred (event_at (thing_at nodes.now)) (candidates forward (ring (thing_at nodes.now) e.0)) }
{
    match (until_occurred, forward) {
        (false, true) => Some(next_of(nodes, e)),
        (false, false) => Some(prev_of(nodes, e)),
        (true, true) => find_next(nodes, e),
        (true, false) => find_prev(nodes, e),
    }
}

// The event to which a walk from e leads.
pub(crate) fn walk_from(
    nodes: &Numbered<Node>,
    e: Slot,
    forward: bool,
    until_occurred: bool,
) -> Option<EventId>
    requires kept { AreLinked nodes.now }
    requires used { number_at nodes.now e.0 ≢ 0 }
    ensures { result ≡ option_map event_id (walk_end until_occurred (events_of nodes.now).events (candidates forward ((events_of nodes.now).rings (number_at nodes.now e.0)))) }
{
    match find_from(nodes, e, forward, until_occurred) {
        Some(found) => Some(id_of(nodes, found)),
        None => None,
    }
}
