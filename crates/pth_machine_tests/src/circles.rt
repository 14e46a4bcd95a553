//! Runs that come to a standstill, and the threads that wait in a circle then.

ghost use Rattle.std.specs.Prelude.{◌≡◌};

use crate::comparison::tells;
use crate::driven::machine_of;
use crate::places::steps;
use pth_audit::cycle::cycle;
use pth_base::ids::Tid;
use pth_base::marks::Marks;
use pth_base::memory::OutOfMemory;
use pth_base::outcome::Outcome;
use pth_sched::machine::Machine;
use pth_script::Script;
use std::alloc::Global;
use std::process::Abort;
use std::test::Fail;

/// A script, and the circle that there is at the end of its run.
struct Row {
    script: &'static str,
    circle: &'static [u32],
}

static ROWS: [Row; 6] = [
    // two threads want each other's mutex
    Row {
        script: "pth 1\nthread 0\nmutex_init 0\nmutex_init 1\nmutex_acquire 0 0 0\nspawn 1 0 0\nyield 0\nmutex_acquire 1 0 0\nend\nthread 1\nmutex_acquire 1 0 0\nmutex_acquire 0 0 0\nend\n",
        circle: &[1, 2],
    },
    // a circle of three, beside main
    Row {
        script: "pth 1\nthread 0\nmutex_init 0\nmutex_init 1\nmutex_init 2\nspawn 1 0 0\nspawn 2 0 0\nspawn 3 0 0\nend\nthread 1\nmutex_acquire 0 0 0\nyield 0\nmutex_acquire 1 0 0\nend\nthread 2\nmutex_acquire 1 0 0\nyield 0\nmutex_acquire 2 0 0\nend\nthread 3\nmutex_acquire 2 0 0\nyield 0\nmutex_acquire 0 0 0\nend\n",
        circle: &[2, 3, 4],
    },
    // two circles, and an older thread that wants a mutex of the first
    Row {
        script: "pth 1\nthread 0\nmutex_init 0\nmutex_init 1\nmutex_init 2\nmutex_init 3\nspawn 1 0 0\nspawn 2 0 0\nspawn 3 0 0\nspawn 4 0 0\nspawn 5 0 0\nend\nthread 1\nnap 5\nmutex_acquire 0 0 0\nend\nthread 2\nmutex_acquire 0 0 0\nyield 0\nmutex_acquire 1 0 0\nend\nthread 3\nmutex_acquire 1 0 0\nyield 0\nmutex_acquire 0 0 0\nend\nthread 4\nmutex_acquire 2 0 0\nyield 0\nmutex_acquire 3 0 0\nend\nthread 5\nmutex_acquire 3 0 0\nyield 0\nmutex_acquire 2 0 0\nend\n",
        circle: &[3, 4],
    },
    // an event may end the wait of one of two
    Row {
        script: "pth 1\ncheck 0 v0 ge 1\nthread 0\nmutex_init 0\nmutex_init 1\nmutex_acquire 0 0 0\nspawn 1 0 0\nyield 0\na1 = ev_func 0 0 1000000000000000\nmutex_acquire 1 0 a1\nend\nthread 1\nmutex_acquire 1 0 0\nmutex_acquire 0 0 0\nend\n",
        circle: &[],
    },
    // a notified thread takes its mutex back, and the one that notified it wants the other of its mutexes
    Row {
        script: "pth 1\nthread 0\nmutex_init 0\nmutex_init 1\ncond_init 0\nspawn 1 0 0\nyield 0\nmutex_acquire 0 0 0\ncond_notify 0 0\nmutex_acquire 1 0 0\nend\nthread 1\nmutex_acquire 1 0 0\nmutex_acquire 0 0 0\ncond_await 0 0 0\nend\n",
        circle: &[1, 2],
    },
    // a run that ends
    Row {
        script: "pth 1\nthread 0\nmutex_init 0\nmutex_acquire 0 0 0\nspawn 1 0 0\nyield 0\nmutex_release 0\nend\nthread 1\nmutex_acquire 0 0 0\nend\n",
        circle: &[],
    },
];

/// The threads of a machine that wait in a circle.
fn circle_is(
    rt: &impl Abort,
    alloc: Global,
    machine: &Machine<Script>,
    outcome: Outcome,
    circle: &[u32],
) -> Result<(), OutOfMemory>
    requires { outcome ≡ machine.now.turn.outcome }
{
    match outcome {
        Outcome::OutOfMemory => return Err(OutOfMemory),
        _ => {}
    }
    match cycle(alloc, machine.world())? {
        Some(found) => same_threads(rt, found.as_slice(), circle),
        None => same_threads(rt, &[], circle),
    }
    Ok(())
}

fn same_threads(rt: &impl Abort, found: &[Tid], wanted: &[u32]) {
    tells(rt, found.len(), found.len() == wanted.len());
    for (k, (t, n)) in found.iter().zip(wanted).enumerate() {
        tells(rt, k, t.0 == *n);
    }
}

fn comes_to(rt: &impl Abort, alloc: Global, row: &Row) -> Result<(), Fail> {
    let mut machine = machine_of(alloc, row.script.as_bytes())?;
    let mut marks = Marks::new(alloc);
    let outcome = steps(&mut machine, 1000, &mut marks);
    circle_is(rt, alloc, &machine, outcome, row.circle)?;
    Ok(())
}

fn all_come_to(rt: &impl Abort, alloc: Global, rows: &[Row]) -> Result<(), Fail> {
    for row in rows {
        comes_to(rt, alloc, row)?;
    }
    Ok(())
}

#[test]
fn circles_are_found(rt: HostRuntime) -> Result<(), Fail> {
    all_come_to(&rt, rt.alloc(), &ROWS)
}
