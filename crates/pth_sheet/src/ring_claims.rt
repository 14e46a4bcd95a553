//! Event Handling of pth(3): what becomes of an event ring, and of seats at conditions, as a call waits for the ring, and as its wait is
//! over.
//!
//! An event of a condition (`PTH_EVENT_COND`) has a seat there while a call waits for its ring. The ring of `r` is read from `r` on.

ghost use Rattle.std.specs.Prelude.{ℕ, ℤ, ◌==◌, ◌≡◌, List, ◌++◌, None, Some};
ghost use Rattle.pth_base.specs.declared.call.Call.{Call};
ghost use Rattle.pth_numbered.specs.Operands.{number};
ghost use Rattle.pth_ring.specs.declared.event.Event.{Event};
ghost use Rattle.pth_ring.specs.declared.event.Status.TheVariants.{Pending};
ghost use Rattle.pth_cond.specs.Conditions.{seat_handed_on};
ghost use Rattle.pth_cond.specs.declared.seats.Taken.{Taken};
ghost use Rattle.pth_model.specs.declared.awaits.Awaits.{Awaits};
ghost use Rattle.pth_model.specs.declared.awaits.Awaits.TheVariants.{Retaking};
ghost use Rattle.pth_model.specs.declared.awaits.Retake.{Retake};
ghost use Rattle.pth_model.specs.Changes.{blocked_of, is_blocked_by};
ghost use Rattle.pth_model.specs.RingWaits.{claims, stops_waiting, ring_seats, ring_given};
ghost use Rattle.pth_model.specs.State.{State, now_of};
ghost use Rattle.pth_model.specs.Transition.{tid};
ghost use Rattle.pth_sheet.specs.Events.{event, is_in_ring, events_at, entered_by, but_those_of, handed_on_by, NoneTwice, HasRing, OnlyEventsAndSeatsChange, OnlySeatsChange};
ghost use Rattle.pth_numbered.specs.Clauses.{◌when◌otherwise◌};

use pth_base::program::Program;

/// A call of `t` that was given the ring of `r` claims it as it begins to wait: all events of the ring become pending, and `t` is noted at
/// `r`. The ring's events of conditions enter seats there, behind all others, in the order of the ring. Nothing else changes.
pub fn ring_is_claimed<P: Program>()
    ensures events { (s : State P P.State P.Shared) (t e : ℕ) (r : ℤ) (x : Event) →
        event s e ≡ Some x →
        (claims t (Some r) s.control).events.events e ≡ Some (record x {
          status = Pending when is_in_ring s r e otherwise x.status;
          next_look = now_of s.control when is_in_ring s r e otherwise x.next_look;
          claim = Some (tid t) when e == number r otherwise x.claim;
        }) }
    ensures seats { (s : State P P.State P.Shared) (t c : ℕ) (r : ℤ) (seats : List Taken) →
        s.control.conditions c ≡ Some seats →
        (claims t (Some r) s.control).conditions c ≡ Some (seats ++ entered_by (events_at s r c)) }
    ensures no_condition { (s : State P P.State P.Shared) (t c : ℕ) (r : ℤ) →
        s.control.conditions c ≡ None →
        (claims t (Some r) s.control).conditions c ≡ None }
    ensures rest { (s : State P P.State P.Shared) (t : ℕ) (r : ℤ) →
        OnlyEventsAndSeatsChange s.control (claims t (Some r) s.control) }
    ensures null { (s : State P P.State P.Shared) (t : ℕ) →
        claims t None s.control ≡ s.control }
{}

/// As the wait is over, the claim is given back: `t` is no longer noted at `r`, and the seats of the ring's events are left. Nothing else
/// changes, but that no call blocks `t`. If a call has no ring, or only reacquires its mutex, it gives none back.
///
/// The premise `NoneTwice` holds in every run (`NoneSeatedTwice` of `pth_laws`).
pub fn ring_is_given_back<P: Program>()
    ensures events { (s : State P P.State P.Shared) (t e : ℕ) (r : ℤ) (x : Event) →
        HasRing s t r →
        event s e ≡ Some x →
        (stops_waiting t s.control).events.events e ≡ Some (record x {
          claim = None when e == number r otherwise x.claim;
        }) }
    ensures seats { (s : State P P.State P.Shared) (t c : ℕ) (r : ℤ) (seats : List Taken) →
        HasRing s t r →
        s.control.conditions c ≡ Some seats →
        NoneTwice seats →
        (stops_waiting t s.control).conditions c ≡ Some (but_those_of (events_at s r c) seats) }
    ensures no_condition { (s : State P P.State P.Shared) (t c : ℕ) (r : ℤ) →
        HasRing s t r →
        s.control.conditions c ≡ None →
        (stops_waiting t s.control).conditions c ≡ None }
    ensures rest { (s : State P P.State P.Shared) (t : ℕ) (r : ℤ) →
        HasRing s t r →
        OnlyEventsAndSeatsChange (is_blocked_by t None s.control) (stops_waiting t s.control) }
    ensures no_ring { (s : State P P.State P.Shared) (t : ℕ) (c : Call) (a : Awaits) →
        blocked_of s.control t ≡ Some (record { call = c; awaits = a }) →
        ring_given c ≡ None →
        stops_waiting t s.control ≡ is_blocked_by t None s.control }
    ensures retaking { (s : State P P.State P.Shared) (t : ℕ) (c : Call) (m : ℤ) (o : Retake) →
        blocked_of s.control t ≡ Some (record { call = c; awaits = Retaking m o }) →
        stops_waiting t s.control ≡ is_blocked_by t None s.control }
{}

/// If `t` is canceled or ends while its call waits for a ring, the seats of the ring's events are handed on first, one after another in
/// the order of the ring: a seat that was notified alone notifies the first one that is not notified yet.
pub fn ring_is_handed_on<P: Program>()
    ensures seats { (s : State P P.State P.Shared) (c : ℕ) (r : ℤ) (seats : List Taken) →
        s.control.conditions c ≡ Some seats →
        (ring_seats seat_handed_on (Some r) s.control).conditions c ≡
        Some (handed_on_by (events_at s r c) seats) }
    ensures no_condition { (s : State P P.State P.Shared) (c : ℕ) (r : ℤ) →
        s.control.conditions c ≡ None →
        (ring_seats seat_handed_on (Some r) s.control).conditions c ≡ None }
    ensures rest { (s : State P P.State P.Shared) (r : ℤ) →
        OnlySeatsChange s.control (ring_seats seat_handed_on (Some r) s.control) }
{}
