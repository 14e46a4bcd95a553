//! Seats of a condition, and which of them have a mark after each call.

use crate::comparison::same_text;
use pth_base::ids::{EventId, Tid};
use pth_cond::conditions::Conds;
use pth_cond::seats::Seat;
use std::alloc::Global;
use std::process::Abort;
use std::test::Fail;

/// The condition that has the seats.
const CONDITION: i64 = 63;

const AWAIT_1: Seat = Seat::Await(Tid(1));

const AWAIT_2: Seat = Seat::Await(Tid(2));

const AWAIT_3: Seat = Seat::Await(Tid(3));

const EVENT_1: Seat = Seat::Event(EventId(1));

/// What is done with the condition.
#[derive(Clone, Copy)]
enum Step {
    Enter(Seat),
    Leave(Seat),
    HandOn(Seat),
    NotifyOne,
    NotifyAll,
    LeaveAll,
}

/// Steps, each with the seats that have a mark after it. A mark of a seat that is left is lost, and one that is handed on goes to
/// the first seat without one, unless all were notified. A notification that meets no seat is lost too.
const ROWS: [(Step, &str); 18] = [
    (Step::NotifyOne, ""),
    (Step::Enter(AWAIT_1), ""),
    (Step::Enter(AWAIT_2), ""),
    (Step::Enter(EVENT_1), ""),
    (Step::NotifyOne, "await 1; "),
    (Step::HandOn(AWAIT_1), "await 2; "),
    (Step::NotifyOne, "await 2; event 1; "),
    (Step::Enter(AWAIT_1), "await 2; event 1; "),
    (Step::Leave(AWAIT_2), "event 1; "),
    (Step::HandOn(EVENT_1), "await 1; "),
    (Step::Enter(AWAIT_3), "await 1; "),
    (Step::Enter(EVENT_1), "await 1; "),
    (Step::HandOn(AWAIT_3), "await 1; "),
    (Step::NotifyAll, "await 1; event 1; "),
    (Step::Enter(AWAIT_2), "await 1; event 1; "),
    (Step::HandOn(EVENT_1), "await 1; "),
    (Step::LeaveAll, ""),
    (Step::NotifyAll, ""),
];

fn make(conditions: &mut Conds, step: Step) -> Result<(), Fail> {
    match step {
        Step::Enter(seat) => conditions.enter(CONDITION, seat)?,
        Step::Leave(seat) => conditions.leave(CONDITION, seat),
        Step::HandOn(seat) => conditions.hand_on(CONDITION, seat),
        Step::NotifyOne => conditions.notify(CONDITION, false)?,
        Step::NotifyAll => conditions.notify(CONDITION, true)?,
        Step::LeaveAll => conditions.leave_all(),
    }
    Ok(())
}

/// Adds a seat with its name, if it has a mark.
fn tell(text: &mut String, conditions: &Conds, seat: Seat, name: &str) -> Result<(), Fail> {
    if conditions.is_marked(CONDITION, seat) {
        write!(text, "{name}; ")?;
    }
    Ok(())
}

fn told(alloc: Global, conditions: &Conds) -> Result<String, Fail> {
    let mut text = String::new(alloc);
    tell(&mut text, conditions, AWAIT_1, "await 1")?;
    tell(&mut text, conditions, AWAIT_2, "await 2")?;
    tell(&mut text, conditions, AWAIT_3, "await 3")?;
    tell(&mut text, conditions, EVENT_1, "event 1")?;
    Ok(text)
}

fn have_marks(rt: &impl Abort, alloc: Global, rows: &[(Step, &str)]) -> Result<(), Fail> {
    let mut conditions = Conds::new(alloc);
    conditions.init(CONDITION)?;
    for (step, wanted) in rows {
        make(&mut conditions, *step)?;
        let told = told(alloc, &conditions)?;
        same_text(rt, told.as_str(), wanted);
    }
    assert!(rt; conditions.is_live(CONDITION));
    Ok(())
}

#[test]
fn marks_are_at_the_right_seats(rt: HostRuntime) -> Result<(), Fail> {
    have_marks(&rt, rt.alloc(), &ROWS)
}
