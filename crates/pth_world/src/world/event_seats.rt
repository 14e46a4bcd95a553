//! The seats of events at conditions (`PTH_EVENT_COND`): those of a ring are entered, left, and handed on.

ghost use Rattle.std.specs.Prelude.{◌≡◌, ◌≢◌, OnOk, if◌then◌else◌};
ghost use Rattle.pth_cond.specs.Conditions.{conditions_of, seat_entered, seat_handed_on, seat_left};
ghost use Rattle.pth_model.specs.EventSeats.{condition_of, seat_changed, seats_changed};
ghost use Rattle.pth_numbered.specs.Numbered.{number_at};
ghost use Rattle.pth_numbered.specs.Operands.{number};
ghost use Rattle.pth_ring.specs.Arena.{events_of};
ghost use Rattle.pth_ring.specs.Ring.{Begins};

use pth_base::ids::{EventId, Slot};
use pth_base::memory::OutOfMemory;
use pth_base::refusal::Refusal;
use pth_cond::conditions::Conds;
use pth_cond::seats::Seat;
use pth_ring::rings::{EventSpec, Rings};

// An event of a condition enters its seat there: none if the condition is not initialised.
fn enter_seat(conditions: &mut Conds, e: EventId, spec: &EventSpec) -> Result<(), OutOfMemory>
    ensures { OnOk result (conditions_of conditions.new ≡ seat_changed seat_entered e.0 (condition_of spec.now) (conditions_of conditions.old)) }
{
    let EventSpec::Cond(c) = spec else {
        return Ok(());
    };
    match conditions.enter(*c, Seat::Event(e)) {
        Ok(()) => Ok(()),
        Err(Refusal::Fail(_)) => Ok(()),
        Err(Refusal::OutOfMemory) => Err(OutOfMemory),
    }
}

// The events of a ring enter their seats, from a place on and round.
fn enter_round(rings: &Rings, conditions: &mut Conds, first: Slot) -> Result<(), OutOfMemory>
    requires used { number_at rings.now first.0 ≢ 0 }
    requires begins { Begins ((events_of rings.now).rings (number_at rings.now first.0)) (number_at rings.now first.0) }
    ensures { OnOk result (conditions_of conditions.new ≡ seats_changed seat_entered (events_of rings.now) ((events_of rings.now).rings (number_at rings.now first.0)) (conditions_of conditions.old)) }
{
    let mut at = first;
    'round: loop {
        enter_seat(conditions, rings.id_at(at), rings.spec_at(at))?;
        at = rings.next_at(at);
        if at.0 == first.0 {
            return Ok(());
        }
    }
}

// The events of the ring of an event enter their seats, in order from this event on.
pub(crate) fn enter_seats(rings: &Rings, conditions: &mut Conds, e: i64) -> Result<(), OutOfMemory>
    ensures { OnOk result (conditions_of conditions.new ≡ seats_changed seat_entered (events_of rings.now) ((events_of rings.now).rings (number e)) (conditions_of conditions.old)) }
{
    match rings.find(e) {
        Some(first) => enter_round(rings, conditions, first),
        None => Ok(()),
    }
}

// An event of a condition leaves its seat there, or hands it on.
fn leave_seat(conditions: &mut Conds, e: EventId, spec: &EventSpec, hands_on: bool)
    ensures { conditions_of conditions.new ≡ seat_changed (if hands_on then seat_handed_on else seat_left) e.0 (condition_of spec.now) (conditions_of conditions.old) }
{
    if let EventSpec::Cond(c) = spec {
        if hands_on {
            conditions.hand_on(*c, Seat::Event(e));
        } else {
            conditions.leave(*c, Seat::Event(e));
        }
    }
}

// The events of a ring leave their seats, or hand them on, from a place on and round.
fn leave_round(rings: &Rings, conditions: &mut Conds, first: Slot, hands_on: bool)
    requires used { number_at rings.now first.0 ≢ 0 }
    requires begins { Begins ((events_of rings.now).rings (number_at rings.now first.0)) (number_at rings.now first.0) }
    ensures { conditions_of conditions.new ≡ seats_changed (if hands_on then seat_handed_on else seat_left) (events_of rings.now) ((events_of rings.now).rings (number_at rings.now first.0)) (conditions_of conditions.old) }
{
    let mut at = first;
    'round: loop {
        leave_seat(conditions, rings.id_at(at), rings.spec_at(at), hands_on);
        at = rings.next_at(at);
        if at.0 == first.0 {
            return;
        }
    }
}

// The events of the ring of an event leave their seats, or hand them on, in order from this event on. If no event has a seat, the ring
// is not walked.
pub(crate) fn leave_seats(rings: &Rings, conditions: &mut Conds, e: i64, hands_on: bool)
    ensures { conditions_of conditions.new ≡ seats_changed (if hands_on then seat_handed_on else seat_left) (events_of rings.now) ((events_of rings.now).rings (number e)) (conditions_of conditions.old) }
{
    if !conditions.has_event_seats() {
        return;
    }
    if let Some(first) = rings.find(e) {
        leave_round(rings, conditions, first, hands_on);
    }
}
