//! Rings of events, by their numbers.

ghost use Rattle.std.specs.Prelude.{◌≡◌, ◌≢◌, ◌<◌, ℕ, IsTrue, true, false, IfOk, IfSome, IfNone, OnOk, OnErr, Some, None, option_map, option_copied, [], if◌then◌else◌};
ghost use Rattle.std.specs.Result.{result_err};
ghost use Rattle.pth_numbered.specs.Operands.{number};
ghost use Rattle.pth_numbered.specs.Numbered.{number_at};
ghost use Rattle.pth_base.specs.Chain.{StandsIn};
ghost use Rattle.pth_ring.specs.Ring.{Begins, RingGoesOn, ring_holds};
ghost use Rattle.pth_ring.specs.Rings.{kind_of, is_event, is_claimed as is_claimed_ring, settled_in, event_after, ring_refusal, concat_refusal, make_answer, chain_answer, concat_answer, isolate_answer, free_answer, claim_answer, walk_answer, status_answer, kind_answer, AnswersEvent, no_events, alone, chained, concatenated, isolated, freed, ring_freed, claimed, unclaimed, all_unclaimed, with_event, with_status, with_next_look, with_claim};
ghost use Rattle.pth_ring.specs.Nodes.{ring_node};
ghost use Rattle.pth_ring.specs.Arena.{events_of};

use crate::event::Event;
pub use crate::event::{EventSpec, RingNode, Status};
use crate::links::{free_all, free_one, insert_alone, insert_before, join_rings, part};
use crate::marks::{Claims, await_ring, release_all, set_claim, set_next_look, set_status};
use crate::node::{Node, event_of, id_of, next_of, ring_node_of};
use crate::rounds::{count_settled, is_claimed, is_with, walk_from};
use pth_base::errno::Errno;
use pth_base::ids::{EventId, Micros, Slot, Tid};
use pth_base::refusal::Refusal;
use pth_numbered::error::AddErr;
use pth_numbered::numbered::Numbered;
use std::alloc::Global;
use std::marker::Model;

/// How many events there may be at once.
pub const MOST_EVENTS: u32 = 4096;

/// Events (`pth_event_t`), each in a ring, numbered upwards from 1. No number is used again.
pub struct Rings {
    nodes: Numbered<Node>,
}

impl Model for Rings {
    ghost use Rattle.pth_ring.specs.Arena.{RingsOf, AreLinked};

    ghost Value = { RingsOf };

    ghost view = { λ a. a.nodes };

    ghost invariant = { λ a. AreLinked a.nodes };
}

// By hand, so that letting one go is one call in each proof.
impl Drop for Rings {
    fn drop(self) {
        let Rings { nodes: _ } = self;
    }
}

impl Rings {
    /// No events, which takes no memory.
    pub fn new(alloc: Global) -> Rings
        ensures { events_of result ≡ no_events }
    {
        Rings {
            nodes: Numbered::new(alloc, MOST_EVENTS),
        }
    }

    /// The place of the event that an operand names. It stays the same as long as there is the event.
    pub fn find(&self, e: i64) -> Option<Slot>
        ensures none { IfNone result (is_event (events_of self.now) (number e) ≡ false) }
        ensures no_ring { IfNone result ((events_of self.now).rings (number e) ≡ []) }
        ensures some { IfSome result (λ _. is_event (events_of self.now) (number e) ≡ true) }
        ensures named { IfSome result (λ s. number_at self.now s.0 ≡ number e) }
        ensures used { IfSome result (λ s. number_at self.now s.0 ≢ 0) }
        ensures begins { IfSome result (λ s. Begins ((events_of self.now).rings (number_at self.now s.0)) (number_at self.now s.0)) }
    {
        let made = self.nodes.made();
        if e < 0 || e > made as i64 {
            return None;
        }
        self.nodes.find(e as u32)
    }

    // The place of an event whose ring nobody claims.
    fn find_unclaimed(&self, e: i64) -> Result<Slot, Errno>
        ensures refused { result_err result ≡ ring_refusal (events_of self.now) (number e) }
        ensures named { IfOk result (λ s. number_at self.now s.0 ≡ number e) }
        ensures used { IfOk result (λ s. number_at self.now s.0 ≢ 0) }
    {
        let Some(place) = self.find(e) else {
            return Err(Errno::EINVAL);
        };
        if is_claimed(&self.nodes, place) {
            return Err(Errno::EBUSY);
        }
        Ok(place)
    }

    /// Whether some thread claims the ring of the event that an operand names: none does where there is no such event.
    pub fn is_claimed(&self, e: i64) -> bool
        ensures { result ≡ is_claimed_ring (events_of self.now) (number e) }
    {
        match self.find(e) {
            Some(place) => is_claimed(&self.nodes, place),
            None => false,
        }
    }

    // The places of two events whose rings may become one.
    fn find_two(&self, a: i64, b: i64) -> Result<(Slot, Slot), Errno>
        ensures refused { result_err result ≡ concat_refusal (events_of self.now) (number a) (number b) }
        ensures a { IfOk result (λ p. number_at self.now p.0.0 ≡ number a) }
        ensures b { IfOk result (λ p. number_at self.now p.1.0 ≡ number b) }
        ensures a_used { IfOk result (λ p. number_at self.now p.0.0 ≢ 0) }
        ensures b_used { IfOk result (λ p. number_at self.now p.1.0 ≢ 0) }
        ensures apart { IfOk result (λ p. ring_holds (number_at self.now p.0.0) ((events_of self.now).rings (number_at self.now p.1.0)) ≡ false) }
    {
        let Some(a) = self.find(a) else {
            return Err(Errno::EINVAL);
        };
        let Some(b) = self.find(b) else {
            return Err(Errno::EINVAL);
        };
        if is_with(&self.nodes, a, b) {
            return Err(Errno::EINVAL);
        }
        if is_claimed(&self.nodes, a) || is_claimed(&self.nodes, b) {
            return Err(Errno::EBUSY);
        }
        Ok((a, b))
    }

    /// `pth_event`: a new event, pending and alone in its ring. EAGAIN where there are 4096.
    pub fn make(&mut self, spec: EventSpec) -> Result<EventId, Refusal>
        requires { self.old.made < 4294967295 }
        ensures answer { AnswersEvent (make_answer (events_of self.old)) result }
        ensures changes { OnOk result (events_of self.new ≡ alone spec (events_of self.old)) }
        ensures refused { OnErr result (self.new ≡ self.old) }
    {
        match insert_alone(&mut self.nodes, spec) {
            Ok((id, _)) => Ok(id),
            Err(AddErr::TooMany) => Err(Refusal::Fail(Errno::EAGAIN)),
            Err(AddErr::OutOfMemory) => Err(Refusal::OutOfMemory),
        }
    }

    /// `pth_event` with `PTH_MODE_CHAIN`: a new event, pending, just before another. EINVAL where there is no such event,
    /// EBUSY where its ring is claimed, and EAGAIN where there are 4096 events.
    pub fn chain(&mut self, spec: EventSpec, e: i64) -> Result<EventId, Refusal>
        requires { self.old.made < 4294967295 }
        ensures answer { AnswersEvent (chain_answer (events_of self.old) (number e)) result }
        ensures changes { OnOk result (events_of self.new ≡ chained spec (number e) (events_of self.old)) }
        ensures refused { OnErr result (self.new ≡ self.old) }
    {
        match self.find_unclaimed(e) {
            Err(errno) => Err(Refusal::Fail(errno)),
            Ok(place) => match insert_before(&mut self.nodes, spec, place) {
                Ok(id) => Ok(id),
                Err(AddErr::TooMany) => Err(Refusal::Fail(Errno::EAGAIN)),
                Err(AddErr::OutOfMemory) => Err(Refusal::OutOfMemory),
            },
        }
    }

    /// `pth_event_concat`: two rings become one, read from the one event and then from the other. EINVAL where one of them is
    /// no event or both stand in one ring, and EBUSY where a ring is claimed.
    pub fn concat(&mut self, a: i64, b: i64) -> Result<(), Errno>
        ensures answer { result ≡ concat_answer (events_of self.old) (number a) (number b) }
        ensures changes { OnOk result (events_of self.new ≡ concatenated (number a) (number b) (events_of self.old)) }
        ensures refused { OnErr result (self.new ≡ self.old) }
    {
        match self.find_two(a, b) {
            Err(errno) => Err(errno),
            Ok((a, b)) => {
                join_rings(&mut self.nodes, a, b);
                Ok(())
            }
        }
    }

    /// `pth_event_isolate`: an event stands alone, and the next event of the rest is answered, if there is a rest. EINVAL
    /// where there is no such event, and EBUSY where its ring is claimed.
    pub fn isolate(&mut self, e: i64) -> Result<Option<EventId>, Errno>
        ensures answer { result ≡ isolate_answer (events_of self.old) (number e) }
        ensures changes { OnOk result (events_of self.new ≡ isolated (number e) (events_of self.old)) }
        ensures refused { OnErr result (self.new ≡ self.old) }
    {
        match self.find_unclaimed(e) {
            Err(errno) => Err(errno),
            Ok(place) => Ok(part(&mut self.nodes, place)),
        }
    }

    /// `pth_event_free`: an event is gone, or with `all` its whole ring. No number of theirs names an event from now on.
    /// EINVAL where there is no such event, and EBUSY where its ring is claimed.
    pub fn free(&mut self, e: i64, all: bool) -> Result<(), Errno>
        ensures answer { result ≡ free_answer (events_of self.old) (number e) }
        ensures changes { OnOk result (events_of self.new ≡ (if all then ring_freed (number e) (events_of self.old) else freed (number e) (events_of self.old))) }
        ensures refused { OnErr result (self.new ≡ self.old) }
    {
        match self.find_unclaimed(e) {
            Err(errno) => Err(errno),
            Ok(place) => {
                if all {
                    free_all(&mut self.nodes, place);
                } else {
                    free_one(&mut self.nodes, place);
                }
                Ok(())
            }
        }
    }

    /// A thread waits for a ring: its events are pending, their next looks are now, and the claim stands at the event that was
    /// given. EINVAL where there is no such event, and EBUSY where the ring is claimed.
    pub fn claim(&mut self, e: i64, t: Tid, now: Micros) -> Result<(), Errno>
        ensures answer { result ≡ claim_answer (events_of self.old) (number e) }
        ensures changes { OnOk result (events_of self.new ≡ claimed (number e) t now (events_of self.old)) }
        ensures refused { OnErr result (self.new ≡ self.old) }
    {
        match self.find_unclaimed(e) {
            Err(errno) => Err(errno),
            Ok(place) => {
                await_ring(&mut self.nodes, place, now);
                set_claim(&mut self.nodes, place, Some(t));
                Ok(())
            }
        }
    }

    /// `pth_event_walk`: the neighbour of an event, or the first event in that direction that has occurred, itself the last.
    /// EINVAL where there is no such event, and ENOENT where none has occurred.
    pub fn walk(&self, e: i64, forward: bool, until_occurred: bool) -> Result<EventId, Errno>
        ensures { result ≡ walk_answer (events_of self.now) (number e) forward until_occurred }
    {
        let Some(place) = self.find(e) else {
            return Err(Errno::EINVAL);
        };
        match walk_from(&self.nodes, place, forward, until_occurred) {
            Some(id) => Ok(id),
            None => Err(Errno::ENOENT),
        }
    }

    // What is kept of the event that an operand names.
    fn event(&self, e: i64) -> Option<&Event>
        ensures { option_copied result ≡ (events_of self.now).events (number e) }
    {
        match self.find(e) {
            Some(place) => Some(event_of(&self.nodes, place)),
            None => None,
        }
    }

    /// `pth_event_status`: what was found when the event was last looked at. EINVAL where there is no such event.
    pub fn status(&self, e: i64) -> Result<Status, Errno>
        ensures { result ≡ status_answer (events_of self.now) (number e) }
    {
        match self.event(e) {
            Some(event) => Ok(event.status),
            None => Err(Errno::EINVAL),
        }
    }

    /// `pth_event_typeof`: what the event is of: 1 a descriptor, 2 a selection of them, 3 a moment, 4 a port, 5 a thread, 6 a
    /// check, 7 a condition. EINVAL where there is no such event.
    pub fn kind(&self, e: i64) -> Result<u8, Errno>
        ensures { result ≡ kind_answer (events_of self.now) (number e) }
    {
        match self.event(e) {
            Some(event) => Ok(kind_of(&event.spec)),
            None => Err(Errno::EINVAL),
        }
    }

    /// The claim that stands at an event is gone, if there is one. Nothing changes where there is no such event.
    pub fn unclaim_at(&mut self, e: i64)
        ensures { events_of self.new ≡ with_event (with_claim None) (number e) (events_of self.old) }
    {
        if let Some(place) = self.find(e) {
            set_claim(&mut self.nodes, place, None);
        }
    }

    /// The claims of a thread are gone. It goes over the places, of which there are at most 4096.
    pub fn unclaim(&mut self, t: Tid)
        ensures { events_of self.new ≡ unclaimed t.0 (events_of self.old) }
    {
        release_all(&mut self.nodes, Claims::OfThread(t));
    }

    /// All claims are gone. It goes over the places, of which there are at most 4096.
    pub fn unclaim_all(&mut self)
        ensures { events_of self.new ≡ all_unclaimed (events_of self.old) }
    {
        release_all(&mut self.nodes, Claims::OfAll);
    }

    // The place of an event.
    fn place_of(&self, e: EventId) -> Slot
        requires { IsTrue (is_event (events_of self.now) e.0) }
        ensures number { number_at self.now result.0 ≡ e.0 }
        ensures used { number_at self.now result.0 ≢ 0 }
    {
        match self.nodes.find(e.0) {
            Some(place) => place,
            None => unreachable!(),
        }
    }

    /// What an event is of.
    pub fn spec(&self, e: EventId) -> &EventSpec
        requires { IsTrue (is_event (events_of self.now) e.0) }
        ensures { option_map (λ (v : Event). v.spec) ((events_of self.now).events e.0) ≡ Some result.now }
    {
        let place = self.place_of(e);
        &event_of(&self.nodes, place).spec
    }

    /// Something was found of an event.
    pub fn mark(&mut self, e: EventId, status: Status)
        requires { IsTrue (is_event (events_of self.old) e.0) }
        ensures { events_of self.new ≡ with_event (with_status status) e.0 (events_of self.old) }
    {
        let place = self.place_of(e);
        set_status(&mut self.nodes, place, status);
    }

    /// An event is not looked at again before a moment.
    pub fn look_next(&mut self, e: EventId, at: Micros)
        requires { IsTrue (is_event (events_of self.old) e.0) }
        ensures { events_of self.new ≡ with_event (with_next_look at) e.0 (events_of self.old) }
    {
        let place = self.place_of(e);
        set_next_look(&mut self.nodes, place, at);
    }

    /// The moment before which an event is not looked at again.
    pub fn next_look(&self, e: EventId) -> Micros
        requires { IsTrue (is_event (events_of self.now) e.0) }
        ensures { option_map (λ (v : Event). v.next_look) ((events_of self.now).events e.0) ≡ Some result }
    {
        let place = self.place_of(e);
        event_of(&self.nodes, place).next_look
    }

    /// How many events of a ring are not pending.
    pub fn occurred(&self, e: EventId) -> u32
        requires { IsTrue (is_event (events_of self.now) e.0) }
        ensures { result ≡ settled_in (events_of self.now) e.0 }
    {
        let place = self.place_of(e);
        count_settled(&self.nodes, place)
    }

    /// How many events are not pending in the ring of the event that an operand names: none where there is no such event.
    pub fn settled(&self, e: i64) -> u32
        ensures { result ≡ settled_in (events_of self.now) (number e) }
    {
        match self.find(e) {
            Some(place) => count_settled(&self.nodes, place),
            None => 0,
        }
    }

    /// The event after another in its ring.
    pub fn next(&self, e: EventId) -> EventId
        requires { IsTrue (is_event (events_of self.now) e.0) }
        ensures { event_after (events_of self.now) e.0 ≡ Some result.0 }
    {
        let place = self.place_of(e);
        let next = next_of(&self.nodes, place);
        id_of(&self.nodes, next)
    }

    /// The events before and after an event in its ring.
    pub fn node(&self, e: EventId) -> &RingNode
        requires { IsTrue (is_event (events_of self.now) e.0) }
        ensures { ring_node (events_of self.now) e.0 ≡ Some result.now }
    {
        let place = self.place_of(e);
        ring_node_of(&self.nodes, place)
    }

    /// The number of the event at a place.
    pub fn id_at(&self, place: Slot) -> EventId
        requires { number_at self.now place.0 ≢ 0 }
        ensures { result.0 ≡ number_at self.now place.0 }
    {
        id_of(&self.nodes, place)
    }

    /// What the event at a place is of.
    pub fn spec_at(&self, place: Slot) -> &EventSpec
        requires { number_at self.now place.0 ≢ 0 }
        ensures { option_map (λ (v : Event). v.spec) ((events_of self.now).events (number_at self.now place.0)) ≡ Some result.now }
    {
        &event_of(&self.nodes, place).spec
    }

    /// What is kept of the event at a place.
    pub fn event_at(&self, place: Slot) -> &Event
        requires { number_at self.now place.0 ≢ 0 }
        ensures { (events_of self.now).events (number_at self.now place.0) ≡ Some result.now }
    {
        event_of(&self.nodes, place)
    }

    /// The place of the next event.
    pub fn next_at(&self, place: Slot) -> Slot
        requires { number_at self.now place.0 ≢ 0 }
        ensures used { number_at self.now result.0 ≢ 0 }
        ensures apart { (other : ℕ) → number_at self.now other ≡ number_at self.now result.0 → other ≡ result.0 }
        ensures next { event_after (events_of self.now) (number_at self.now place.0) ≡ Some (number_at self.now result.0) }
        ensures round { (e : ℕ) → StandsIn (number_at self.now place.0) ((events_of self.now).rings e) → RingGoesOn ((events_of self.now).rings e) e (number_at self.now place.0) (number_at self.now result.0) }
    {
        next_of(&self.nodes, place)
    }

    /// Something was found of the event at a place.
    pub fn mark_at(&mut self, place: Slot, status: Status)
        requires { number_at self.old place.0 ≢ 0 }
        ensures events { events_of self.new ≡ with_event (with_status status) (number_at self.old place.0) (events_of self.old) }
        ensures places { number_at self.new ≡ number_at self.old }
    {
        set_status(&mut self.nodes, place, status);
    }

    /// The event at a place is not looked at again before a moment.
    pub fn look_next_at(&mut self, place: Slot, at: Micros)
        requires { number_at self.old place.0 ≢ 0 }
        ensures events { events_of self.new ≡ with_event (with_next_look at) (number_at self.old place.0) (events_of self.old) }
        ensures places { number_at self.new ≡ number_at self.old }
    {
        set_next_look(&mut self.nodes, place, at);
    }
}

// The number that stands for what an event is of.
fn kind_of(spec: &EventSpec) -> u8
    ensures { result ≡ kind_of spec.now }
{
    match spec {
        EventSpec::Fd { .. } => 1,
        EventSpec::Select { .. } => 2,
        EventSpec::Time(_) => 3,
        EventSpec::Msg(_) => 4,
        EventSpec::Tid { .. } => 5,
        EventSpec::Func { .. } => 6,
        EventSpec::Cond(_) => 7,
    }
}
