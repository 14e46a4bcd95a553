//! A program of boxed bodies, with the lines of its run.

use crate::comparison::{has_ended, same_lines};
use crate::driven::started;
use crate::places::add_lines;
use pth_base::act::Act;
use pth_base::answer::Answer;
use pth_base::call::Call;
use pth_base::ids::{CheckId, HandlerId};
use pth_base::marks::Marks;
use pth_base::memory::OutOfMemory;
use pth_base::program::Program;
use pth_bodies::bodies::Bodies;
use pth_bodies::body::Body;
use pth_bodies::cells::Cells;
use pth_bodies::regs::Regs;
use pth_bodies::rules::Rules;
use pth_text::text::Text;
use std::alloc::Global;
use std::process::Abort;
use std::test::Fail;

/// Main's body: it spawns a thread, yields and exits.
#[derive(Drop)]
struct Spawner;

impl Body for Spawner {
    ghost use Rattle.pth_machine_tests.specs.Boxed.{main_functions};

    ghost body_functions = { λ _. main_functions };

    fn entry(&self, _arg: i64) -> Regs {
        Regs {
            place: 0,
            r: [0; 16],
        }
    }

    fn step(
        &self,
        _alloc: Global,
        regs: &mut Regs,
        _cells: &mut Cells,
        _answer: &Answer,
    ) -> Result<Call, OutOfMemory> {
        let (call, next) = match regs.place {
            0 => (Call::Spawn { b: 1, v: 9, a: 0 }, 1),
            1 => (Call::Yield(0), 2),
            _ => (Call::Exit(0), 2),
        };
        regs.place = next;
        Ok(call)
    }
}

/// The body of the thread that main spawns: it exits with 9.
#[derive(Drop)]
struct Nine;

impl Body for Nine {
    ghost use Rattle.pth_machine_tests.specs.Boxed.{child_functions};

    ghost body_functions = { λ _. child_functions };

    fn entry(&self, _arg: i64) -> Regs {
        Regs {
            place: 0,
            r: [0; 16],
        }
    }

    fn step(
        &self,
        _alloc: Global,
        _regs: &mut Regs,
        _cells: &mut Cells,
        _answer: &Answer,
    ) -> Result<Call, OutOfMemory> {
        Ok(Call::Exit(9))
    }
}

/// No check holds, and no handler acts.
#[derive(Drop)]
struct NoRules;

impl Rules for NoRules {
    ghost use Rattle.pth_machine_tests.specs.Boxed.{no_rules};

    ghost rule_functions = { λ _. no_rules };

    fn check(&self, _check: CheckId, _arg: i64, _cells: &Cells) -> bool {
        false
    }

    fn act(&self, _h: HandlerId, _arg: i64, _index: u32, _cells: &mut Cells) -> Option<Act> {
        None
    }
}

const LINES: &str =
    "turn 1 at 0 t1 rank 0\nt1 spawn 1 9 0 = 2\nt1 yield 0 = 1\nturn 2 at 1 t2 rank 1\nt2 ends 9\nturn 3 at 2 t1 rank 1\nt1 ends 0\n";

/// Runs a program to its end, and compares its lines.
fn run<P: Program>(rt: &impl Abort, alloc: Global, program: P) -> Result<(), Fail> {
    let mut machine = started(rt, alloc, program)?;
    let mut marks = Marks::new(alloc);
    let outcome = machine.advance(100, &mut marks);
    let mut lines = Text::new(alloc);
    add_lines(&marks, &mut lines)?;
    same_lines(rt, lines.as_slice(), LINES);
    has_ended(rt, outcome);
    Ok(())
}

#[test]
fn boxed_bodies_run(rt: HostRuntime) -> Result<(), Fail> {
    let alloc = rt.alloc();
    let mut bodies: Vec<Box<dyn Body>> = Vec::new(alloc);
    bodies.push(Box::new(alloc, Spawner)?)?;
    bodies.push(Box::new(alloc, Nine)?)?;
    let rules: Box<dyn Rules> = Box::new(alloc, NoRules)?;
    run(&rt, alloc, Bodies::new(bodies, rules))
}
