//! Machines of texts, driven to the end of their runs, and watched.

ghost use Rattle.std.specs.Prelude.{◌≡◌, ◌≤◌, IfOk};

use crate::watch::Watch;
use pth_base::ids::FdSet;
use pth_base::limits::MOST_STEPS;
use pth_base::marks::Marks;
use pth_base::memory::OutOfMemory;
use pth_base::outcome::Outcome;
use pth_base::program::Program;
use pth_kernel::kernel::Kernel;
use pth_kernel::trace::Trace;
use pth_sched::machine::Machine;
use pth_script::Script;
use pth_script::generate::generate;
use pth_script::read::{ReadErr, read};
use std::alloc::Global;
use std::process::Abort;

/// How many steps are made at a time.
const PIECE: u64 = 1000;

/// How many turns or pieces are made at most.
const MOST_PIECES: u32 = 100_000;

/// How a machine is driven: by pieces of so many steps, or by turns.
#[derive(Clone, Copy)]
pub enum By {
    Pieces,
    Turns,
}

/// The machine of a program, with a kernel to whose descriptors nothing comes.
pub fn started<P: Program>(
    rt: &impl Abort,
    alloc: Global,
    program: P,
) -> Result<Machine<P>, OutOfMemory>
    ensures { IfOk result (λ machine. machine.turn.steps ≡ 0) }
{
    let trace = Trace::new(alloc);
    assert!(rt; trace.first_fault(FdSet(0)).is_none());
    let kernel = Kernel::new(alloc, 1, FdSet(0), trace)?;
    Machine::new(alloc, program, kernel, 5)
}

/// The machine of a script.
pub fn machine_of(alloc: Global, text: &[u8]) -> Result<Machine<Script>, ReadErr>
    ensures { IfOk result (λ machine. machine.turn.outcome ≡ Outcome.Running) }
{
    let (script, kernel, top) = read(alloc, text)?;
    Ok(Machine::new(alloc, script, kernel, top)?)
}

/// The machine of a workload of so many threads.
pub fn workload(alloc: Global, threads: u32) -> Result<Machine<Script>, ReadErr>
    requires { (1 ≤ threads) × (threads ≤ 1000) }
{
    let text = generate(alloc, threads)?;
    machine_of(alloc, text.as_slice())
}

/// Makes the next piece or turn, as long as steps are left, and tells its marks alone.
fn go_on(machine: &mut Machine<Script>, by: By, marks: &mut Marks) -> Outcome {
    marks.clear();
    if machine.steps() > MOST_STEPS - PIECE {
        return Outcome::Running;
    }
    match by {
        By::Pieces => machine.advance(PIECE, marks),
        By::Turns => machine.turn(PIECE, marks),
    }
}

/// Drives a machine to the end of its run. After each piece or turn its marks are compared, and what it tells of the waits of the
/// threads with numbers below `room`. The answer is the longest wait that it told, and how the run stands.
pub fn drive(
    rt: &impl Abort,
    alloc: Global,
    machine: &mut Machine<Script>,
    by: By,
    room: u32,
) -> Result<(u64, Outcome), OutOfMemory> {
    let mut watch = Watch::new(alloc, room)?;
    let mut marks = Marks::new(alloc);
    for _ in 0..MOST_PIECES {
        let outcome = go_on(machine, by, &mut marks);
        watch.follow(rt, marks.as_slice());
        watch.ask(rt, machine);
        if !matches!(outcome, Outcome::Running) {
            return Ok((watch.longest(), outcome));
        }
    }
    Ok((watch.longest(), Outcome::Running))
}
