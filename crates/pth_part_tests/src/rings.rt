//! Rings as their events are joined and parted: the numbers of each event's neighbours. And what is found of an event.

ghost use Rattle.std.specs.Prelude.{◌≤◌, ◌<◌, ◌+◌};

use crate::comparison::same_text;
use Turn::{Claim, Concat, Free, Isolate, LookNext, Mark, Unclaim};
use pth_base::errno::Errno;
use pth_base::ids::{EventId, Micros, Tid};
use pth_base::refusal::Refusal;
use pth_ring::rings::{EventSpec, RingNode, Rings, Status};
use std::alloc::{AllocError, Global};
use std::process::Abort;
use std::test::Fail;

/// What is done to rings.
#[derive(Clone, Copy)]
enum Turn {
    Concat(i64, i64),
    Isolate(i64),
    Free(i64),
    Claim(i64),
    Unclaim,
    Mark(u32, Status),
    LookNext(u32, Micros),
}

/// A new event before another, or alone before none.
fn add(rings: &mut Rings, before: Option<i64>) -> Result<(), Refusal>
    requires { rings.old.made < 100 }
    ensures { rings.new.made ≤ rings.old.made + 1 }
{
    let spec = EventSpec::Time(5);
    let _id = match before {
        Some(e) => rings.chain(spec, e)?,
        None => rings.make(spec)?,
    };
    Ok(())
}

/// One ring of events 1, 2 and 3, and one of 4 and 5.
fn two_rings(alloc: Global) -> Result<Rings, Refusal> {
    let mut rings = Rings::new(alloc);
    add(&mut rings, None)?;
    add(&mut rings, Some(1))?;
    add(&mut rings, Some(1))?;
    add(&mut rings, None)?;
    add(&mut rings, Some(4))?;
    Ok(rings)
}

/// The event that follows those that are left.
fn isolate(rings: &mut Rings, e: i64) -> Result<i64, Errno> {
    let next = rings.isolate(e)?;
    Ok(next.map_or(0, |id| i64::from(id.0)))
}

/// Something was found of an event, if there is one.
fn mark(rings: &mut Rings, e: u32, status: Status) {
    if rings.find(i64::from(e)).is_some() {
        rings.mark(EventId(e), status);
    }
}

/// An event, if there is one, is not looked at again before a moment.
fn look_next(rings: &mut Rings, e: u32, at: Micros) {
    if rings.find(i64::from(e)).is_some() {
        rings.look_next(EventId(e), at);
    }
}

/// The number that is answered, 0 where there is none.
fn change(rings: &mut Rings, turn: Turn) -> Result<i64, Errno> {
    match turn {
        Turn::Concat(a, b) => rings.concat(a, b)?,
        Turn::Isolate(e) => return isolate(rings, e),
        Turn::Free(e) => rings.free(e, false)?,
        Turn::Claim(e) => rings.claim(e, Tid(1), 0)?,
        Turn::Unclaim => rings.unclaim(Tid(1)),
        Turn::Mark(e, status) => mark(rings, e, status),
        Turn::LookNext(e, at) => look_next(rings, e, at),
    }
    Ok(0)
}

fn tell_answer(text: &mut String, answer: Result<i64, Errno>) -> Result<(), AllocError> {
    match answer {
        Ok(number) => write!(text, "{number}; "),
        Err(Errno::EBUSY) => text.push_str("EBUSY; "),
        Err(Errno::EINVAL) => text.push_str("EINVAL; "),
        Err(_) => text.push_str("refused; "),
    }
}

/// Adds a node's fields, each under its name: the event before and the one after.
fn tell_node(text: &mut String, e: u32, node: &RingNode) -> Result<(), AllocError> {
    let RingNode { prev, next } = node;
    write!(text, "{e}: {} {}, ", prev.0, next.0)
}

/// Adds the nodes of events 1 to 5, of those that there are.
fn tell_nodes(text: &mut String, rings: &Rings) -> Result<(), AllocError> {
    for e in 1..6 {
        if rings.find(i64::from(e)).is_some() {
            tell_node(text, e, rings.node(EventId(e)))?;
        }
    }
    Ok(())
}

/// Adds what is found of an event of a moment: the moment, the event after it, how many events of its ring are not pending, and when
/// it is looked at next.
fn tell_found(text: &mut String, rings: &Rings, e: u32) -> Result<(), AllocError> {
    if rings.find(i64::from(e)).is_none() {
        return text.push_str("none");
    }
    let event = EventId(e);
    let EventSpec::Time(at) = rings.spec(event) else {
        return text.push_str("of another kind");
    };
    let next = rings.next(event);
    let occurred = rings.occurred(event);
    write!(
        text,
        "of {at}: {} {occurred} {}",
        next.0,
        rings.next_look(event)
    )
}

/// What is done to the two rings, one after the other, with what is answered and the nodes after it.
static ROWS: [(Turn, &str); 8] = [
    // what is refused changes no node
    (
        Isolate(6),
        "EINVAL; 1: 3 2, 2: 1 3, 3: 2 1, 4: 5 5, 5: 4 4, ",
    ),
    (Concat(1, 4), "0; 1: 5 2, 2: 1 3, 3: 2 4, 4: 3 5, 5: 4 1, "),
    (Isolate(4), "5; 1: 5 2, 2: 1 3, 3: 2 5, 4: 4 4, 5: 3 1, "),
    (Free(2), "0; 1: 5 3, 3: 1 5, 4: 4 4, 5: 3 1, "),
    (Concat(4, 3), "0; 1: 5 4, 3: 4 5, 4: 1 3, 5: 3 1, "),
    (Concat(5, 3), "EINVAL; 1: 5 4, 3: 4 5, 4: 1 3, 5: 3 1, "),
    (Claim(3), "0; 1: 5 4, 3: 4 5, 4: 1 3, 5: 3 1, "),
    (Isolate(5), "EBUSY; 1: 5 4, 3: 4 5, 4: 1 3, 5: 3 1, "),
];

fn stand(rt: &impl Abort, alloc: Global, rows: &[(Turn, &str)]) -> Result<(), Fail> {
    let mut rings = two_rings(alloc)?;
    for (turn, wanted) in rows {
        let answer = change(&mut rings, *turn);
        let mut text = String::new(alloc);
        tell_answer(&mut text, answer)?;
        tell_nodes(&mut text, &rings)?;
        same_text(rt, text.as_str(), wanted);
    }
    Ok(())
}

/// What is done to the two rings, one after the other, with what is answered and what is found of event 3 after it.
static LOOKS: [(Turn, &str); 7] = [
    (LookNext(3, 70), "0; of 5: 1 0 70"),
    (Mark(2, Status::Occurred), "0; of 5: 1 1 70"),
    (Mark(3, Status::Failed), "0; of 5: 1 2 70"),
    // what is claimed is pending, and looked at next now
    (Claim(1), "0; of 5: 1 0 0"),
    (Isolate(3), "EBUSY; of 5: 1 0 0"),
    (Unclaim, "0; of 5: 1 0 0"),
    (Isolate(3), "1; of 5: 3 0 0"),
];

fn find(rt: &impl Abort, alloc: Global, rows: &[(Turn, &str)]) -> Result<(), Fail> {
    let mut rings = two_rings(alloc)?;
    for (turn, wanted) in rows {
        let answer = change(&mut rings, *turn);
        let mut text = String::new(alloc);
        tell_answer(&mut text, answer)?;
        tell_found(&mut text, &rings, 3)?;
        same_text(rt, text.as_str(), wanted);
    }
    Ok(())
}

#[test]
fn nodes_are_those_of_rings(rt: HostRuntime) -> Result<(), Fail> {
    stand(&rt, rt.alloc(), &ROWS)?;
    find(&rt, rt.alloc(), &LOOKS)
}
