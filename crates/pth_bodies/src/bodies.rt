//! Boxed bodies and rules as a program.

ghost use Rattle.std.specs.Prelude.{◌≡◌, ◌≤◌, length, IfOk};

use crate::body::Body;
use crate::cells::Cells;
use crate::regs::Regs;
use crate::rules::Rules;
use crate::thread::Thread;
use pth_base::act::Act;
use pth_base::answer::Answer;
use pth_base::call::Call;
use pth_base::ids::{BodyId, CheckId, HandlerId};
use pth_base::memory::OutOfMemory;
use pth_base::program::Program;
use std::alloc::Global;

/// Boxed thread bodies, of which body 0 is main's, with the rules that they name.
#[derive(Drop)]
pub struct Bodies {
    bodies: Vec<Box<dyn Body>>,
    rules: Box<dyn Rules>,
    ghost some: { 1 ≤ length bodies.items },
    ghost most: { length bodies.items ≤ 256 },
}

// The first registers of a thread of a body.
fn entry_of(body: &Box<dyn Body>, arg: i64) -> Regs
    ensures { result ≡ ((Body-box body.now).body_functions body.now.value).entry arg }
{
    body.entry(arg)
}

// A step of a body.
fn step_of(
    body: &Box<dyn Body>,
    alloc: Global,
    regs: &mut Regs,
    cells: &mut Cells,
    answer: &Answer,
) -> Result<Call, OutOfMemory>
    ensures { IfOk result (λ call. record { call = call; state = regs.new; shared = cells.new } ≡ ((Body-box body.now).body_functions body.now.value).step regs.old cells.old answer.now) }
{
    body.step(alloc, regs, cells, answer)
}

impl Bodies {
    /// The program of these bodies and rules. There are 1 to 256 bodies.
    pub fn new(bodies: Vec<Box<dyn Body>>, rules: Box<dyn Rules>) -> Bodies
        requires some { 1 ≤ length bodies.items }
        requires most { length bodies.items ≤ 256 }
        ensures bodies { result.bodies.items ≡ bodies.items }
        ensures rules { result.rules ≡ rules }
    {
        Bodies { bodies, rules }
    }
}

#[tactic(auto, unfolding(crate::specs::Bodies::functions_of_bodies))]
impl Program for Bodies {
    ghost use Rattle.std.specs.Prelude.{map};
    ghost use Rattle.pth_bodies.specs.Bodies.{functions_of_bodies};

    type State = Thread;

    type Shared = Cells;

    ghost functions = { λ p. functions_of_bodies (map (λ b. (Body-box b).body_functions b.value) p.bodies.items) ((Rules-box p.rules).rule_functions p.rules.value) };

    fn shared(&self, _alloc: Global) -> Result<Cells, OutOfMemory> {
        Ok(Cells { v: [0; 64] })
    }

    fn bodies(&self) -> u32 {
        self.bodies.len() as u32
    }

    fn start(&self, _alloc: Global, body: BodyId, arg: i64) -> Result<Thread, OutOfMemory> {
        Ok(Thread {
            body: body.0,
            regs: entry_of(&self.bodies[body.0 as usize], arg),
        })
    }

    fn step(
        &self,
        alloc: Global,
        thread: &mut Thread,
        cells: &mut Cells,
        answer: &Answer,
    ) -> Result<Call, OutOfMemory> {
        match self.bodies.get(thread.body as usize) {
            Some(body) => step_of(body, alloc, &mut thread.regs, cells, answer),
            None => Ok(Call::Exit(0)),
        }
    }

    fn check(&self, check: CheckId, arg: i64, cells: &Cells) -> bool {
        self.rules.check(check, arg, cells)
    }

    fn act(&self, handler: HandlerId, arg: i64, index: u32, cells: &mut Cells) -> Option<Act> {
        self.rules.act(handler, arg, index, cells)
    }
}
