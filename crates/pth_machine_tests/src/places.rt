//! The places of a run, one behind another, each of which is saved and taken up again.

ghost use Rattle.std.specs.Prelude.{◌≡◌, [], None, IsTrue};

use crate::comparison::{same, same_lines, starts};
use crate::driven::machine_of;
use crate::saved_runs::{RUNS, Run};
use pth_base::bytes::Bytes;
use pth_base::limits::MOST_STEPS;
use pth_base::marks::Marks;
use pth_base::memory::OutOfMemory;
use pth_base::outcome::Outcome;
use pth_print::mark_line::mark_line;
use pth_queue::queue::Queue;
use pth_sched::machine::Machine;
use pth_script::Script;
use pth_script::read::ReadErr;
use pth_snapshot::load::load;
use pth_snapshot::save::save;
use pth_text::text::Text;
use std::alloc::Global;
use std::process::Abort;
use std::test::Fail;

/// So many places of a run are looked at, at most.
const MOST_PLACES: u64 = 200;

/// A run that is taken up goes on for so many steps, at most.
const STEPS: u64 = 2000;

/// Makes so many steps, if so many are left.
pub fn steps(machine: &mut Machine<Script>, n: u64, marks: &mut Marks) -> Outcome
    requires { machine.old.turn.outcome ≡ Outcome.Running }
    ensures { result ≡ machine.new.turn.outcome }
{
    if n > MOST_STEPS || machine.steps() > MOST_STEPS - n {
        return Outcome::Running;
    }
    machine.advance(n, marks)
}

/// Makes a turn, but of so many steps at most, if so many are left.
pub fn turn(machine: &mut Machine<Script>, n: u64, marks: &mut Marks) -> Outcome
    requires { machine.old.turn.outcome ≡ Outcome.Running }
    ensures { result ≡ machine.new.turn.outcome }
{
    if n > MOST_STEPS || machine.steps() > MOST_STEPS - n {
        return Outcome::Running;
    }
    machine.turn(n, marks)
}

/// Whether a move of idle time comes next.
fn is_idle(machine: &Machine<Script>) -> bool
    requires { machine.now.turn.outcome ≡ Outcome.Running }
    ensures nobody { IsTrue result → machine.now.world.scheduler.running ≡ None }
    ensures none_new { IsTrue result → machine.now.world.threads.queues.new ≡ [] }
    ensures none_ready { IsTrue result → machine.now.world.threads.queues.ready ≡ [] }
{
    let world = machine.world();
    world.running().is_none() && world.is_empty(Queue::New) && world.is_empty(Queue::Ready)
}

/// Makes a move of idle time, and then a run without one is stalled.
pub fn move_time(machine: &mut Machine<Script>, marks: &mut Marks) -> Outcome
    requires { machine.old.turn.outcome ≡ Outcome.Running }
    ensures { result ≡ machine.new.turn.outcome }
{
    if !is_idle(machine) {
        return Outcome::Running;
    }
    match machine.idle(marks) {
        Ok(true) => Outcome::Running,
        Ok(false) => steps(machine, 0, marks),
        Err(_) => Outcome::OutOfMemory,
    }
}

/// Goes on to the next place: behind a move of idle time, or a step with the end of its turn.
fn next_place(machine: &mut Machine<Script>, marks: &mut Marks) -> Outcome
    requires { machine.old.turn.outcome ≡ Outcome.Running }
    ensures { result ≡ machine.new.turn.outcome }
{
    if is_idle(machine) {
        move_time(machine, marks)
    } else {
        turn(machine, 1, marks)
    }
}

/// Adds the lines of marks.
pub fn add_lines(marks: &Marks, text: &mut Text) -> Result<(), OutOfMemory> {
    for mark in marks.as_slice() {
        mark_line(mark, false, text)?;
    }
    Ok(())
}

/// The lines of the first steps of a script's run.
fn first_lines(alloc: Global, script: &str) -> Result<Text, ReadErr> {
    let mut machine = machine_of(alloc, script.as_bytes())?;
    let mut marks = Marks::new(alloc);
    let _outcome = steps(&mut machine, STEPS, &mut marks);
    let mut text = Text::new(alloc);
    add_lines(&marks, &mut text)?;
    Ok(text)
}

/// The lines that a run tells behind a place, none if its text is not taken up.
fn lines_behind(alloc: Global, script: &str, saved: &[u8]) -> Result<Option<Marks>, OutOfMemory> {
    let Ok(mut machine) = load(alloc, script.as_bytes(), saved) else {
        return Ok(None);
    };
    let mut marks = Marks::new(alloc);
    let _outcome = steps(&mut machine, STEPS, &mut marks);
    Ok(Some(marks))
}

/// What a machine told so far, and what a run tells that is taken up from its text, is what the whole run tells.
fn goes_on(
    rt: &impl Abort,
    alloc: Global,
    run: &Run,
    saved: &[u8],
    told: &Marks,
    whole: &Text,
) -> Result<(), OutOfMemory> {
    let mut text = Text::new(alloc);
    add_lines(told, &mut text)?;
    match lines_behind(alloc, run.script, saved)? {
        Some(marks) => add_lines(&marks, &mut text)?,
        None => same(rt, 0, 1),
    }
    starts(rt, text.as_slice(), whole.as_slice());
    Ok(())
}

/// Saves the run of a script at each of its places, and takes it up there.
fn is_saved(rt: &impl Abort, alloc: Global, run: &Run) -> Result<(), Fail> {
    let whole = first_lines(alloc, run.script)?;
    let mut machine = machine_of(alloc, run.script.as_bytes())?;
    let mut marks = Marks::new(alloc);
    let mut places = 0;
    while places < MOST_PLACES {
        let saved = save(alloc, &machine)?;
        goes_on(rt, alloc, run, saved.as_slice(), &marks, &whole)?;
        places += 1;
        match next_place(&mut machine, &mut marks) {
            Outcome::Running => {}
            _ => break,
        }
    }
    same(rt, places, run.places);
    Ok(())
}

fn are_saved(rt: &impl Abort, alloc: Global, runs: &[Run]) -> Result<(), Fail> {
    for run in runs {
        is_saved(rt, alloc, run)?;
    }
    Ok(())
}

#[test]
fn each_place_is_saved_and_taken_up(rt: HostRuntime) -> Result<(), Fail> {
    are_saved(&rt, rt.alloc(), &RUNS)
}
