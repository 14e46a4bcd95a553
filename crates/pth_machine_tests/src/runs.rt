//! Runs of workloads and of scripts, with what they come to.

ghost use Rattle.std.specs.Prelude.{◌≤◌};

use crate::comparison::{has_ended, same};
use crate::driven::{By, drive, machine_of, workload};
use pth_sched::machine::Machine;
use pth_script::Script;
use std::alloc::Global;
use std::process::Abort;
use std::test::Fail;

/// What a run comes to.
#[derive(Clone, Copy)]
struct Counts {
    threads: u64,
    turns: u64,
    steps: u64,
    moment: u64,
}

fn has_counts(rt: &impl Abort, machine: &Machine<Script>, counts: Counts) {
    same(rt, machine.made(), counts.threads);
    same(rt, machine.turns(), counts.turns);
    same(rt, machine.steps(), counts.steps);
    same(rt, machine.now(), counts.moment);
}

/// Runs a workload of so many threads, and compares what it comes to.
fn comes_to(
    rt: &impl Abort,
    alloc: Global,
    threads: u32,
    by: By,
    counts: Counts,
) -> Result<(), Fail>
    requires { (1 ≤ threads) × (threads ≤ 1000) }
{
    let mut machine = workload(alloc, threads)?;
    let (_longest, outcome) = drive(rt, alloc, &mut machine, by, threads + 2)?;
    has_ended(rt, outcome);
    has_counts(rt, &machine, counts);
    Ok(())
}

#[test]
fn a_workload_is_run_by_pieces(rt: HostRuntime) -> Result<(), Fail> {
    let counts = Counts {
        threads: 201,
        turns: 14_035,
        steps: 15_237,
        moment: 14_208,
    };
    comes_to(&rt, rt.alloc(), 200, By::Pieces, counts)
}

#[test]
fn a_workload_is_run_by_turns(rt: HostRuntime) -> Result<(), Fail> {
    let counts = Counts {
        threads: 101,
        turns: 3770,
        steps: 4372,
        moment: 3850,
    };
    comes_to(&rt, rt.alloc(), 100, By::Turns, counts)
}

/// Scripts, each with a number that all its threads are below, and how long a thread waits in it at most.
static SCRIPTS: [(&str, u32, u64); 6] = [
    // the thread of the least priority is ready beside one of the greatest, until it has risen above it
    (
        "pth 1\nthread 0\na1 = attr_new\nattr_set a1 prio -5\na2 = spawn 1 3 a1\nattr_set a1 prio 5\na3 = spawn 1 12 a1\njoin a2\njoin a3\nend\nthread 1\nlabel 1\nyield 0\nadd a1 1\ngoto 1 a1 lt a0\nend\n",
        10,
        10,
    ),
    // two threads name each other, past a third
    (
        "pth 1\nthread 0\na1 = attr_new\nattr_set a1 prio 1\nspawn 1 0 a1\nattr_set a1 prio 5\nspawn 2 0 a1\nattr_set a1 prio 4\nspawn 3 0 a1\nnap 60\nend\nthread 1\nyield 0\nnote 1\nend\nthread 2\nlabel 1\nyield 4\nadd a5 1\ngoto 1 a5 lt 9\nend\nthread 3\nlabel 1\nyield 3\nadd a5 1\ngoto 1 a5 lt 9\nend\n",
        10,
        19,
    ),
    // each new thread makes another one, which comes in above main
    (
        "pth 1\nthread 0\na1 = attr_of 1\nattr_set a1 prio 5\nspawn 1 5 0\nyield 0\nend\nthread 1\ngoto 1 a0 le 0\nadd a0 -1\nspawn 1 a0 0\nlabel 1\nend\n",
        10,
        6,
    ),
    // a thread is suspended as it is ready, and begins another wait where it is resumed
    (
        "pth 1\nthread 0\na1 = attr_of 1\nattr_set a1 prio 5\na2 = spawn 1 0 0\nyield 0\nsuspend a2\nyield 0\nyield 0\nresume a2\nyield 0\nyield 0\nnap 2\nend\nthread 1\nyield 0\nyield 0\nyield 0\nend\n",
        10,
        2,
    ),
    // a new thread is suspended before its turn, as main has waited longer than its grace
    (
        "pth 1\nthread 0\na1 = attr_of 1\nattr_set a1 prio 5\nspawn 1 0 0\nspawn 2 0 0\nyield 0\nresume 5\nyield 0\nend\nthread 1\nend\nthread 2\nspawn 3 0 0\nspawn 1 0 0\nyield 0\nend\nthread 3\nsuspend 5\nyield 0\nend\n",
        10,
        3,
    ),
    // all threads but main wake in one pass, and the last of them waits for all others
    (
        "pth 1\nthread 0\nlabel 1\nspawn 1 0 0\nadd a1 1\ngoto 1 a1 lt 4095\nexit 0\nend\nthread 1\na1 = ev_time 100000\nwait a1\nend\n",
        4097,
        4094,
    ),
];

/// Runs a script by turns, and compares the longest wait.
fn waits_at_most(
    rt: &impl Abort,
    alloc: Global,
    text: &str,
    room: u32,
    wanted: u64,
) -> Result<(), Fail> {
    let mut machine = machine_of(alloc, text.as_bytes())?;
    let (longest, outcome) = drive(rt, alloc, &mut machine, By::Turns, room)?;
    has_ended(rt, outcome);
    same(rt, longest, wanted);
    Ok(())
}

fn wait_at_most(rt: &impl Abort, alloc: Global, rows: &[(&str, u32, u64)]) -> Result<(), Fail> {
    for (text, room, longest) in rows {
        waits_at_most(rt, alloc, text, *room, *longest)?;
    }
    Ok(())
}

#[test]
fn scripts_wait_so_long(rt: HostRuntime) -> Result<(), Fail> {
    wait_at_most(&rt, rt.alloc(), &SCRIPTS)
}
