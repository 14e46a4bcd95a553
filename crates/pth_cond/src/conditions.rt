//! Conditions.

ghost use Rattle.std.specs.Prelude.{◌≡◌, ◌<◌, ◌^◌, false, nat_lt, length, if◌then◌else◌, OnOk, OnErr};
ghost use Rattle.pth_store.specs.Storing.{AnswersWithMemory};
ghost use Rattle.pth_cond.specs.Seats.{with_seat, without_seat, notified, handed_on, is_event, event_seats_gone, HandingOnKeepsOnes};
ghost use Rattle.pth_cond.specs.Conditions.{conditions_of, is_initialised, is_marked_in, is_marked, IsAnyLive, HasFewEvents, NoEventIsSeated, ConditionsAreSound, all_event_seats, live_answer, cond_init_answer, cond_enter_answer, cond_notify_answer, no_conditions, cond_initialised, with_seats, seat_entered, seat_left, seat_handed_on, cond_notified, all_left, all_seats_left};

use crate::seats::{Seat, SeatMark, Seats};
use pth_base::errno::Errno;
use pth_base::refusal::Refusal;
use pth_lock::objects::{MOST_OBJECTS, place_of};
use std::alloc::Global;
use std::array;
use std::marker::Model;

/// The conditions (`pth_cond_t`), from 0 to 63, and who has a seat at each. Only `enter` takes memory.
pub struct Conds {
    alloc: Global,
    // None where one is not initialised.
    conditions: [Option<Seats>; MOST_OBJECTS],
    // Whether one was initialised.
    any_live: bool,
    // How many seats events have, at all conditions. Each condition has fewer than 2^64, so their sum fits.
    event_seats: u128,
}

impl Model for Conds {
    ghost use Rattle.std.specs.Prelude.{List};
    ghost use Rattle.pth_cond.specs.Conditions.{Condition, ConditionsAreKept};

    ghost Value = { List Condition };

    ghost view = { λ a. a.conditions };

    ghost invariant = { λ a. ConditionsAreKept a.any_live a.event_seats a.conditions };
}

// By hand, so that letting one go is one call in each proof.
impl Drop for Conds {
    fn drop(self) {
        let Conds {
            alloc: _,
            conditions: _,
            any_live: _,
            event_seats: _,
        } = self;
    }
}

impl Conds {
    /// No condition is initialised. It takes no memory.
    pub fn new(alloc: Global) -> Conds
        ensures { conditions_of result ≡ no_conditions }
    {
        Conds {
            alloc,
            conditions: array::from_fn(|_| None),
            any_live: false,
            event_seats: 0,
        }
    }

    /// `pth_cond_init`: a condition, from 0 to 63, can be awaited and notified from now on. EINVAL where there is no such
    /// condition, EBUSY where it is initialised already.
    pub fn init(&mut self, c: i64) -> Result<(), Errno>
        ensures answer { result ≡ cond_init_answer (conditions_of self.old) c }
        ensures changes { OnOk result
            (conditions_of self.new ≡ cond_initialised c (conditions_of self.old)) }
        ensures refused { OnErr result (self.new ≡ self.old) }
    {
        let Some(place) = place_of(c) else {
            return Err(Errno::EINVAL);
        };
        if self.conditions[place].is_some() {
            return Err(Errno::EBUSY);
        }
        self.conditions[place] = Some(Seats::new(self.alloc));
        self.any_live = true;
        Ok(())
    }

    /// Whether a condition was initialised. The answer is kept as a flag.
    pub fn is_any_live(&self) -> bool
        ensures { IsAnyLive result (conditions_of self.now) }
    {
        self.any_live
    }

    /// Whether a condition is initialised.
    pub fn is_live(&self, c: i64) -> bool
        ensures answer { result ≡ is_initialised (conditions_of self.now) c }
        ensures sound { ConditionsAreSound (conditions_of self.now) }
    {
        match place_of(c) {
            Some(place) => self.conditions[place].is_some(),
            None => false,
        }
    }

    /// `pth_cond_await`, `PTH_EVENT_COND`: a seat is entered last at a condition, without a mark. EINVAL where the condition is
    /// not initialised. Where there is no memory nothing changes.
    pub fn enter(&mut self, c: i64, seat: Seat) -> Result<(), Refusal>
        ensures answer { AnswersWithMemory (cond_enter_answer (conditions_of self.old) c) result }
        ensures changes { OnOk result
            (conditions_of self.new ≡ seat_entered c seat (conditions_of self.old)) }
        ensures refused { OnErr result (self.new ≡ self.old) }
    {
        let conditions = &mut self.conditions;
        let event_seats = &mut self.event_seats;
        match place_of(c) {
            Some(place) => enter_at(conditions, event_seats, place, seat),
            None => Err(Refusal::Fail(Errno::EINVAL)),
        }
    }

    /// A seat of a condition is left, whatever its mark: the first, where it was entered more than once. Nothing changes where
    /// nobody has it.
    pub fn leave(&mut self, c: i64, seat: Seat)
        ensures { conditions_of self.new ≡ seat_left c seat (conditions_of self.old) }
    {
        if let Some(place) = place_of(c) {
            leave_at(&mut self.conditions, &mut self.event_seats, place, seat);
        }
    }

    /// A seat of a condition is left. If it was notified alone, the first seat without a mark is, in its place. Nothing changes
    /// where nobody has the seat.
    pub fn hand_on(&mut self, c: i64, seat: Seat)
        ensures { conditions_of self.new ≡ seat_handed_on c seat (conditions_of self.old) }
    {
        if let Some(place) = place_of(c) {
            hand_on_at(&mut self.conditions, &mut self.event_seats, place, seat);
        }
    }

    /// `pth_cond_notify`: the first seat without a mark has the mark One, if there is such a seat, or each of them the mark All.
    /// EINVAL where the condition is not initialised.
    pub fn notify(&mut self, c: i64, all: bool) -> Result<(), Errno>
        ensures answer { result ≡ cond_notify_answer (conditions_of self.old) c }
        ensures changes { OnOk result
            (conditions_of self.new ≡ cond_notified c all (conditions_of self.old)) }
        ensures refused { OnErr result (self.new ≡ self.old) }
    {
        let conditions = &mut self.conditions;
        match place_of(c) {
            Some(place) => notify_at(conditions, place, all),
            None => Err(Errno::EINVAL),
        }
    }

    /// Whether a seat of a condition has a mark.
    pub fn is_marked(&self, c: i64, seat: Seat) -> bool
        ensures { result ≡ is_marked (conditions_of self.now) c seat }
    {
        match place_of(c) {
            Some(place) => is_marked_at(&self.conditions[place], seat),
            None => false,
        }
    }

    /// Whether an event has a seat. The seats of events are counted.
    pub fn has_event_seats(&self) -> bool
        ensures counts { result ≡ nat_lt 0 (all_event_seats self.now) }
        ensures none { result ≡ false → NoEventIsSeated (conditions_of self.now) }
    {
        self.event_seats > 0
    }

    /// All seats are left. Which conditions are initialised stays.
    pub fn leave_all(&mut self)
        ensures { conditions_of self.new ≡ all_seats_left (conditions_of self.old) }
    {
        clear_each(&mut self.conditions);
        self.event_seats = 0;
    }
}

// Whether a seat of a condition has a mark.
fn is_marked_at(condition: &Option<Seats>, seat: Seat) -> bool
    ensures { result ≡ is_marked_in seat condition.now }
{
    match condition {
        Some(seats) => seats.is_marked(seat),
        None => false,
    }
}

// How many seats of events come with a seat that is entered.
fn events_come(seat: Seat) -> u128
    ensures { result ≡ (if is_event seat then 1 else 0) }
{
    if seat.is_event() { 1 } else { 0 }
}

// How many seats of events go with a seat that is left, of which this was the mark.
fn events_gone(seat: Seat, mark: Option<SeatMark>) -> u128
    ensures { result ≡ event_seats_gone seat mark }
{
    if mark.is_some() && seat.is_event() {
        1
    } else {
        0
    }
}

// Enters a seat at the condition at a place.
fn enter_at(
    conditions: &mut [Option<Seats>],
    event_seats: &mut u128,
    place: usize,
    seat: Seat,
) -> Result<(), Refusal>
    requires low { place < length conditions.old }
    requires counted { event_seats.old ≡ all_event_seats conditions.old }
    requires few { event_seats.old < 2 ^ 71 }
    ensures answer { AnswersWithMemory (live_answer (conditions_of conditions.old place)) result }
    ensures long { length conditions.new ≡ length conditions.old }
    ensures changes { OnOk result (conditions_of conditions.new
        ≡ with_seats place (with_seat seat) (conditions_of conditions.old)) }
    ensures counted { event_seats.new ≡ all_event_seats conditions.new }
    ensures few { OnOk result (HasFewEvents (conditions_of conditions.new place)) }
    ensures refused { OnErr result (conditions.new ≡ conditions.old) }
{
    match &mut conditions[place] {
        Some(seats) => {
            seats.enter(seat)?;
            *event_seats += events_come(seat);
            Ok(())
        }
        None => Err(Refusal::Fail(Errno::EINVAL)),
    }
}

// Leaves a seat of the condition at a place.
fn leave_at(conditions: &mut [Option<Seats>], event_seats: &mut u128, place: usize, seat: Seat)
    requires low { place < length conditions.old }
    requires counted { event_seats.old ≡ all_event_seats conditions.old }
    ensures long { length conditions.new ≡ length conditions.old }
    ensures changes { conditions_of conditions.new
        ≡ with_seats place (without_seat seat) (conditions_of conditions.old) }
    ensures counted { event_seats.new ≡ all_event_seats conditions.new }
{
    if let Some(seats) = &mut conditions[place] {
        let mark = seats.leave(seat);
        *event_seats -= events_gone(seat, mark);
    }
}

// Hands a seat of the condition at a place on.
fn hand_on_at(conditions: &mut [Option<Seats>], event_seats: &mut u128, place: usize, seat: Seat)
    requires low { place < length conditions.old }
    requires counted { event_seats.old ≡ all_event_seats conditions.old }
    ensures long { length conditions.new ≡ length conditions.old }
    ensures changes { conditions_of conditions.new
        ≡ with_seats place (handed_on seat) (conditions_of conditions.old) }
    ensures counted { event_seats.new ≡ all_event_seats conditions.new }
{
    if let Some(seats) = &mut conditions[place] {
        let mark = seats.hand_on(seat);
        *event_seats -= events_gone(seat, mark);
    }
}

// Notifies the condition at a place.
fn notify_at(conditions: &mut [Option<Seats>], place: usize, all: bool) -> Result<(), Errno>
    requires { place < length conditions.old }
    ensures answer { result ≡ live_answer (conditions_of conditions.old place) }
    ensures long { length conditions.new ≡ length conditions.old }
    ensures changes { OnOk result (conditions_of conditions.new
        ≡ with_seats place (notified all) (conditions_of conditions.old)) }
    ensures counted { all_event_seats conditions.new ≡ all_event_seats conditions.old }
    ensures refused { OnErr result (conditions.new ≡ conditions.old) }
{
    match &mut conditions[place] {
        Some(seats) => {
            seats.notify(all);
            Ok(())
        }
        None => Err(Errno::EINVAL),
    }
}

// Leaves all seats of a condition.
fn clear_at(condition: &mut Option<Seats>)
    ensures { condition.new ≡ all_left condition.old }
{
    if let Some(seats) = condition {
        seats.clear();
    }
}

// Leaves all seats of each condition.
fn clear_each(conditions: &mut [Option<Seats>])
    ensures long { length conditions.new ≡ length conditions.old }
    ensures left { conditions_of conditions.new ≡ all_seats_left (conditions_of conditions.old) }
    ensures counted { all_event_seats conditions.new ≡ 0 }
{
    for i in 0..conditions.len() {
        clear_at(&mut conditions[i]);
    }
}

/// A mark One that is handed on is not lost while another seat has no mark. A law of the definitions, which has no code.
pub fn handing_on_keeps_ones()
    ensures { HandingOnKeepsOnes }
{}
