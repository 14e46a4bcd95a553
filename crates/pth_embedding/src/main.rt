//! How a program drives a machine: turn by turn, with a look at its threads after each turn, and between two turns by hand.
#![tactic(auto)]

ghost use Rattle.std.specs.Prelude.{◌≡◌, ◌≤◌, None, IfOk, OnOk};
ghost use Rattle.pth_world.specs.WellFormed.{WellFormed};

mod errand;

use crate::errand::{Errand, int_of};
use anyhow::{Result, ensure};
use pth_base::answer::Answer;
use pth_base::bytes::Bytes;
use pth_base::ids::{Fd, FdSet, Tid};
use pth_base::mark::Mark;
use pth_base::marks::Marks;
use pth_base::memory::OutOfMemory;
use pth_base::thread::ThreadState;
use pth_kernel::kernel::Kernel;
use pth_kernel::trace::{Entry, Stamp, Trace};
use pth_queue::queue::Queue;
use pth_sched::machine::{Machine, Outcome};
use pth_waits::wakes::wakes;
use pth_world::world::World;
use std::alloc::{AllocError, Global};
use std::io;

/// How many steps the run has at most.
const MOST_STEPS: u64 = 1000;

/// How many turns the run has at most.
const MOST_TURNS: u32 = 100;

/// The greatest base priority.
const TOP: u8 = 5;

/// The descriptors that are open from the start: 3 alone.
const OPEN: FdSet = FdSet(8);

/// Prints what a machine told.
fn print_mark(rt: &(impl Print + AllocGlobal), mark: &Mark) -> io::Result<()> {
    match mark {
        Mark::Dispatch { turn, tid, .. } => println!(rt; "turn {turn}: thread {} runs", tid.0),
        Mark::Answered { tid, answer, .. } => print_answer(rt, *tid, answer),
        Mark::Waits { tid, .. } => println!(rt; "thread {} waits", tid.0),
        Mark::Woke { tid, .. } => println!(rt; "thread {} waits no longer", tid.0),
        Mark::Ended { tid, value } => println!(rt; "thread {} ends with {value}", tid.0),
        Mark::Moved { at } => println!(rt; "time moves to {at}"),
        _ => Ok(()),
    }
}

fn print_answer(rt: &(impl Print + AllocGlobal), tid: Tid, answer: &Answer) -> io::Result<()> {
    match answer {
        Answer::Bytes(bytes) => {
            println!(rt; "thread {} reads {} bytes", tid.0, bytes.as_slice().len())
        }
        _ => println!(rt; "thread {} is answered {}", tid.0, int_of(answer)),
    }
}

fn print_marks(rt: &(impl Print + AllocGlobal), marks: &[Mark]) -> io::Result<()> {
    for mark in marks {
        print_mark(rt, mark)?;
    }
    Ok(())
}

/// Of a thread that waits, whether what it waits for has come.
fn wait_of(world: &World<Errand>, t: Tid, state: ThreadState) -> &'static str
    requires { WellFormed world.now }
{
    match state {
        ThreadState::Waiting if wakes(world, t) => " for what has come",
        ThreadState::Waiting => " for what has not come",
        _ => "",
    }
}

/// Prints the rank of a thread that is new, ready or waiting, and how many stand before it in its queue.
fn print_place(rt: &(impl Print + AllocGlobal), world: &World<Errand>, t: Tid) -> io::Result<()>
    requires { WellFormed world.now }
{
    match world.place(t) {
        Some((Queue::New | Queue::Ready | Queue::Waiting, rank, before)) => {
            println!(rt; "    at rank {rank}, behind {before}")
        }
        _ => Ok(()),
    }
}

/// Prints the record of a thread, where it has one: it has none once it was joined.
fn print_thread(
    rt: &(impl Print + AllocGlobal),
    world: &World<Errand>,
    number: u32,
) -> io::Result<()>
    requires { WellFormed world.now }
{
    match world.entry(Tid(number)) {
        Some(entry) => {
            println!(rt;
                "  thread {number}: {:?}{}, dispatches {}",
                entry.state,
                wait_of(world, entry.tid, entry.state),
                entry.dispatches
            )?;
            print_place(rt, world, entry.tid)
        }
        None => println!(rt; "  thread {number}: gone"),
    }
}

/// Prints who runs, how many threads stand in each queue, and the record of each thread that was made.
fn print_world(rt: &(impl Print + AllocGlobal), world: &World<Errand>) -> io::Result<()>
    requires { WellFormed world.now }
{
    match world.running() {
        Some(t) => println!(rt; "  thread {} runs on", t.0)?,
        None => println!(rt; "  nobody runs")?,
    }
    let (new, ready) = (world.count_in(Queue::New), world.count_in(Queue::Ready));
    let (waiting, dead) = (world.count_in(Queue::Waiting), world.count_in(Queue::Dead));
    println!(rt; "  {new} new, {ready} ready, {waiting} waiting, {dead} dead")?;
    for number in 1..=world.threads().made() {
        print_thread(rt, world, number)?;
    }
    Ok(())
}

/// Prints how often another thread was dispatched since a thread became ready, and how often that may be; nothing if it is not ready.
fn print_wait(
    rt: &(impl Print + AllocGlobal),
    machine: &Machine<Errand>,
    t: Tid,
) -> io::Result<()> {
    match (machine.waited(t), machine.allowed(t)) {
        (Some(waited), Some(allowed)) => {
            println!(rt; "  thread {}: waited {waited}, allowed {allowed}", t.0)
        }
        _ => Ok(()),
    }
}

/// Prints how long each thread waits that is ready.
fn print_waits(rt: &(impl Print + AllocGlobal), machine: &Machine<Errand>) -> io::Result<()> {
    for number in 1..=machine.world().threads().made() {
        print_wait(rt, machine, Tid(number))?;
    }
    Ok(())
}

/// Makes a turn, and prints what it told, how many steps were made, and how the threads are then.
fn print_turn(
    rt: &(impl Print + AllocGlobal),
    machine: &mut Machine<Errand>,
    marks: &mut Marks,
) -> Result<Outcome>
    requires few { machine.old.turn.steps ≤ MOST_STEPS }
    ensures few { IfOk result (λ outcome. machine.new.turn.steps ≤ MOST_STEPS) }
    ensures outcome { IfOk result (λ outcome. outcome ≡ machine.new.turn.outcome) }
{
    marks.clear();
    let outcome = machine.turn(MOST_STEPS - machine.steps(), marks);
    print_marks(rt, marks.as_slice())?;
    if outcome == Outcome::OutOfMemory {
        return Err(AllocError.into());
    }
    println!(rt; "  {} steps", machine.steps())?;
    print_world(rt, machine.world())?;
    print_waits(rt, machine)?;
    Ok(outcome)
}

/// Moves time on if no thread can run.
fn idle(machine: &mut Machine<Errand>, marks: &mut Marks) -> Result<(), OutOfMemory>
    requires nobody { machine.old.world.scheduler.running ≡ None }
    requires goes { machine.old.turn.outcome ≡ Outcome.Running }
    ensures nobody { OnOk result (machine.new.world.scheduler.running ≡ None) }
    ensures turn { OnOk result (machine.new.turn ≡ machine.old.turn) }
{
    let world = machine.world();
    if world.is_empty(Queue::New) && world.is_empty(Queue::Ready) {
        let _moved = machine.idle(marks)?;
    }
    Ok(())
}

/// Does by hand what the next turn would begin with: time moves on if no thread can run. A pass after it wakes nobody more.
fn print_idle(
    rt: &(impl Print + AllocGlobal),
    machine: &mut Machine<Errand>,
    marks: &mut Marks,
) -> Result<()>
    requires few { machine.old.turn.steps ≤ MOST_STEPS }
    requires goes { machine.old.turn.outcome ≡ Outcome.Running }
    ensures few { OnOk result (machine.new.turn.steps ≤ MOST_STEPS) }
{
    if machine.world().running().is_some() {
        return Ok(());
    }
    marks.clear();
    idle(machine, marks).map_err(|_| AllocError)?;
    print_marks(rt, marks.as_slice())?;
    marks.clear();
    machine.pass(marks).map_err(|_| AllocError)?;
    let woken = marks.as_slice().len();
    println!(rt; "at {} a pass wakes {woken}", machine.now())?;
    Ok(())
}

/// Four bytes come to descriptor 3 at moment 50.
fn trace(alloc: Global) -> Result<Trace, OutOfMemory> {
    let what = Entry::Arrive(Bytes::from_slice(alloc, b"news")?);
    let mut trace = Trace::new(alloc);
    trace.push(Stamp {
        at: 50,
        fd: Fd(3),
        what,
    })?;
    Ok(trace)
}

/// A machine under a kernel where a turn takes one microsecond.
fn machine(alloc: Global) -> Result<Machine<Errand>>
    ensures { IfOk result (λ machine. machine.turn.steps ≡ 0) }
{
    let trace = trace(alloc).map_err(|_| AllocError)?;
    ensure!(trace.first_fault(OPEN).is_none(), "a stamp breaks a rule");
    let kernel = Kernel::new(alloc, 1, OPEN, trace).map_err(|_| AllocError)?;
    let machine = Machine::new(alloc, Errand, kernel, TOP).map_err(|_| AllocError)?;
    Ok(machine)
}

fn main(rt: HostRuntime) -> Result<()> {
    let mut machine = machine(rt.alloc())?;
    let mut marks = Marks::new(rt.alloc());
    for _ in 0..MOST_TURNS {
        match print_turn(&rt, &mut machine, &mut marks)? {
            Outcome::Running => print_idle(&rt, &mut machine, &mut marks)?,
            Outcome::Ended(value) => {
                println!(rt; "main ended with {value}")?;
                break;
            }
            _ => break,
        }
    }
    Ok(())
}
