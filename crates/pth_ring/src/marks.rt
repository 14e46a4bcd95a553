//! What is found of events, and the claims on rings.

ghost use Rattle.std.specs.Prelude.{◌≡◌, ◌≢◌, ◌+◌, ◌<◌};
ghost use Rattle.pth_numbered.specs.Numbered.{number_at};
ghost use Rattle.pth_ring.specs.Rings.{awaited, with_status, with_next_look, with_claim, with_event, with_each_event, ring_awaited};
ghost use Rattle.pth_ring.specs.Claims.{claim_left, without_claims};
ghost use Rattle.pth_ring.specs.Arena.{events_of, AreLinked, Becomes, Remakes};

use crate::event::Status;
use crate::node::{Node, event_of, next_of};
use pth_base::ids::{Micros, Slot, Tid};
use pth_numbered::numbered::Numbered;

// Something was found of an event.
pub(crate) fn set_status(nodes: &mut Numbered<Node>, e: Slot, status: Status)
    requires kept { AreLinked nodes.old }
    requires used { number_at nodes.old e.0 ≢ 0 }
    ensures { Remakes nodes.old nodes.new e.0 (with_status status) }
{
    nodes.get_mut(e).event.status = status;
}

// An event is not looked at again before a moment.
pub(crate) fn set_next_look(nodes: &mut Numbered<Node>, e: Slot, at: Micros)
    requires kept { AreLinked nodes.old }
    requires used { number_at nodes.old e.0 ≢ 0 }
    ensures { Remakes nodes.old nodes.new e.0 (with_next_look at) }
{
    nodes.get_mut(e).event.next_look = at;
}

// The claim on an event is another.
pub(crate) fn set_claim(nodes: &mut Numbered<Node>, e: Slot, claim: Option<Tid>)
    requires kept { AreLinked nodes.old }
    requires used { number_at nodes.old e.0 ≢ 0 }
    ensures { Remakes nodes.old nodes.new e.0 (with_claim claim) }
{
    nodes.get_mut(e).event.claim = claim;
}

// An event is waited for from now on.
fn await_at(nodes: &mut Numbered<Node>, e: Slot, now: Micros)
    requires kept { AreLinked nodes.old }
    requires used { number_at nodes.old e.0 ≢ 0 }
    ensures { Remakes nodes.old nodes.new e.0 (awaited now) }
{
    let event = &mut nodes.get_mut(e).event;
    event.status = Status::Pending;
    event.next_look = now;
}

// All events of a ring are waited for from now on.
pub(crate) fn await_ring(nodes: &mut Numbered<Node>, e: Slot, now: Micros)
    requires kept { AreLinked nodes.old }
    requires used { number_at nodes.old e.0 ≢ 0 }
    ensures { Becomes nodes.old nodes.new (ring_awaited (number_at nodes.old e.0) now (events_of nodes.old)) }
{
    let mut at = e;
    'round: loop {
        await_at(nodes, at, now);
        at = next_of(nodes, at);
        if at.0 == e.0 {
            return;
        }
    }
}

// Whose claims go.
#[derive(Clone, Copy)]
pub(crate) enum Claims {
    OfThread(Tid),
    OfAll,
}

// What is left of a claim where some go.
fn claim_left(claim: Option<Tid>, gone: Claims) -> Option<Tid>
    ensures { result ≡ claim_left gone claim }
{
    let Claims::OfThread(t) = gone else {
        return None;
    };
    match claim {
        Some(holder) => { if holder.0 == t.0 { None } else { Some(holder) } }
        None => None,
    }
}

// The claim on an event is gone, where it is one of these.
fn release(nodes: &mut Numbered<Node>, e: Slot, gone: Claims)
    requires kept { AreLinked nodes.old }
    requires used { number_at nodes.old e.0 ≢ 0 }
    ensures { Remakes nodes.old nodes.new e.0 (without_claims gone) }
{
    let claim = claim_left(event_of(nodes, e).claim, gone);
    set_claim(nodes, e, claim);
}

// The claim on the event at a place is gone, where it is one of these. Nothing changes where the place is not in use.
fn release_place(nodes: &mut Numbered<Node>, e: Slot, gone: Claims)
    requires { AreLinked nodes.old }
    ensures { Becomes nodes.old nodes.new (with_event (without_claims gone) (number_at nodes.old e.0) (events_of nodes.old)) }
{
    if nodes.number_in(e) != 0 {
        release(nodes, e, gone);
    }
}

// These claims are gone.
pub(crate) fn release_all(nodes: &mut Numbered<Node>, gone: Claims)
    requires { AreLinked nodes.old }
    ensures kept { AreLinked nodes.new }
    ensures events { events_of nodes.new ≡ with_each_event (without_claims gone) (events_of nodes.old) }
{
    let end = nodes.slots_end();
    for place in 0..end {
        release_place(nodes, Slot(place), gone);
    }
}
