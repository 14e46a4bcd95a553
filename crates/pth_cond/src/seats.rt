//! The seats of a condition.

ghost use Rattle.std.specs.Prelude.{◌≡◌, ◌<◌, ◌^◌, length, [], position, OnOk, OnErr};
ghost use Rattle.std.specs.List.{list_any};
ghost use Rattle.pth_cond.specs.Seats.{is_seat, is_at, is_mark, mark_at, is_marked_at, with_seat, without_seat, one_notified, all_notified, notified, handed_on, is_event, seat_number, SeatsAreKept};

use pth_base::ids::{EventId, Tid};
use pth_base::memory::OutOfMemory;
use std::alloc::Global;
use std::marker::Model;

/// Who has a seat at a condition: a thread that awaits it, or an event for it (`PTH_EVENT_COND`).
#[derive(Clone, Copy)]
pub enum Seat {
    Await(Tid),
    Event(EventId),
}

impl Seat {
    // The number of the thread, or of the event.
    fn number(self) -> u32
        ensures { result ≡ seat_number self }
    {
        match self {
            Seat::Await(t) => t.0,
            Seat::Event(e) => e.0,
        }
    }

    // Whether the other is the same seat.
    fn is(self, other: Seat) -> bool
        ensures { result ≡ is_seat self other }
    {
        self.number() == other.number() && self.is_event() == other.is_event()
    }

    // Whether it is an event's.
    pub(crate) fn is_event(self) -> bool
        ensures { result ≡ is_event self }
    {
        matches!(self, Seat::Event(_))
    }
}

/// The mark of a seat: what was notified since it was entered.
#[derive(Clone, Copy)]
pub enum SeatMark {
    /// Nothing.
    Unmarked,
    /// It alone (`pth_cond_notify` of one).
    One,
    /// It with all others (`pth_cond_notify` of all).
    All,
}

impl SeatMark {
    // Whether something was notified.
    fn is_mark(self) -> bool
        ensures { result ≡ is_mark self }
    {
        !matches!(self, SeatMark::Unmarked)
    }
}

/// A seat that was entered and not left, with its mark.
#[derive(Clone, Copy)]
pub struct Taken {
    pub seat: Seat,
    pub mark: SeatMark,
}

// The seats of a condition in order of entry, those with a mark first. Only `enter` takes memory.
pub(crate) struct Seats {
    taken: Vec<Taken>,
    // How many have a mark.
    marked: usize,
}

impl Model for Seats {
    ghost use Rattle.std.specs.Prelude.{List};
    ghost use Rattle.pth_cond.specs.declared.seats.Taken.{Taken};
    ghost use Rattle.pth_cond.specs.Seats.{SeatsAreKept};

    ghost Value = { List Taken };

    ghost view = { λ a. a.taken.items };

    ghost invariant = { λ a. SeatsAreKept a.marked a.taken.items };
}

// By hand, so that letting one go is one call in each proof.
impl Drop for Seats {
    fn drop(self) {
        let Seats {
            taken: _,
            marked: _,
        } = self;
    }
}

impl Seats {
    // Nobody has a seat.
    pub(crate) fn new(alloc: Global) -> Seats
        ensures { result ≡ [] }
    {
        Seats {
            taken: Vec::new(alloc),
            marked: 0,
        }
    }

    // A seat is entered last, without a mark.
    pub(crate) fn enter(&mut self, seat: Seat) -> Result<(), OutOfMemory>
        ensures changes { OnOk result (self.new ≡ with_seat seat self.old) }
        ensures few { OnOk result (length self.new < 2 ^ 64) }
        ensures refused { OnErr result (self.new ≡ self.old) }
    {
        self.taken.push(Taken {
            seat,
            mark: SeatMark::Unmarked,
        })?;
        Ok(())
    }

    // A seat is left. The answer is its mark, None where nobody has it.
    pub(crate) fn leave(&mut self, seat: Seat) -> Option<SeatMark>
        ensures mark { result ≡ mark_at seat self.old }
        ensures changes { self.new ≡ without_seat seat self.old }
    {
        let Some(place) = place_of_seat(&self.taken, seat) else {
            return None;
        };
        let gone = self.taken.remove(place);
        if gone.mark.is_mark() {
            self.marked -= 1;
        }
        Some(gone.mark)
    }

    // A seat is left, and its mark One goes to the first seat without a mark. The answer is the mark that it had, None where
    // nobody has it.
    pub(crate) fn hand_on(&mut self, seat: Seat) -> Option<SeatMark>
        ensures mark { result ≡ mark_at seat self.old }
        ensures changes { self.new ≡ handed_on seat self.old }
    {
        let mark = self.leave(seat);
        if let Some(SeatMark::One) = mark {
            self.notify_one();
        }
        mark
    }

    // The first seat without a mark has the mark One.
    fn notify_one(&mut self)
        ensures { self.new ≡ one_notified self.old }
    {
        if self.marked < self.taken.len() {
            mark_first(&mut self.taken, self.marked);
            self.marked += 1;
        }
    }

    // Each seat without a mark has the mark All.
    fn notify_all(&mut self)
        ensures { self.new ≡ all_notified self.old }
    {
        mark_rest(&mut self.taken, self.marked);
        self.marked = self.taken.len();
    }

    // Notifies one seat, or all.
    pub(crate) fn notify(&mut self, all: bool)
        ensures { self.new ≡ notified all self.old }
    {
        if all {
            self.notify_all();
        } else {
            self.notify_one();
        }
    }

    // Whether a seat has a mark: those that have one stand first, and only they are looked at.
    pub(crate) fn is_marked(&self, seat: Seat) -> bool
        ensures { result ≡ is_marked_at (mark_at seat self.now) }
    {
        stands_among(&self.taken[..self.marked], seat)
    }

    // All seats are left.
    pub(crate) fn clear(&mut self)
        ensures { self.new ≡ [] }
    {
        self.taken.clear();
        self.marked = 0;
    }
}

// Where a seat stands.
fn place_of_seat(taken: &[Taken], seat: Seat) -> Option<usize>
    ensures { result ≡ position (is_at seat) taken.now }
{
    taken.iter().position(|t| t.seat.is(seat))
}

// Whether a seat is one of these. Most seats are told apart by one test, of the numbers alone.
fn stands_among(taken: &[Taken], seat: Seat) -> bool
    ensures { result ≡ list_any (is_at seat) taken.now }
{
    for t in taken {
        if t.seat.number() == seat.number() {
            if t.seat.is(seat) {
                return true;
            }
        }
    }
    false
}

// The first seat without a mark has the mark One.
fn mark_first(taken: &mut [Taken], marked: usize)
    requires kept { SeatsAreKept marked taken.old }
    requires some { marked < length taken.old }
    ensures { taken.new ≡ one_notified taken.old }
{
    taken[marked].mark = SeatMark::One;
}

// Each seat without a mark has the mark All.
fn mark_rest(taken: &mut [Taken], marked: usize)
    requires { SeatsAreKept marked taken.old }
    ensures { taken.new ≡ all_notified taken.old }
{
    for i in marked..taken.len() {
        taken[i].mark = SeatMark::All;
    }
}
