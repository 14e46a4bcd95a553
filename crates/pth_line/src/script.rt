//! Scripts as programs.

ghost use Rattle.std.specs.Prelude.{◌≡◌, ◌≤◌, ◌<◌, ◌+◌, ◌^◌, OnSome, IsNone, length, vec_len, slice_get, All};
ghost use Rattle.std.specs.Option.{option_copied};

use crate::act_line::ActLine;
use crate::block::Block;
use crate::check::Check;
use crate::line::Line;
use pth_base::act::Act;
use pth_base::answer::Answer;
use pth_base::bytes::Bytes;
use pth_base::call::Call;
use pth_base::ids::{BodyId, CheckId, HandlerId};
use pth_base::memory::OutOfMemory;
use pth_base::program::Program;
use pth_operand::cells::Cells;
use pth_operand::frame::{Frame, Owed};
use std::alloc::Global;
use std::marker::Model;

/// A script of 1 to 256 bodies, with handlers of at most 64 acts.
pub struct Script {
    handlers: Vec<Block<ActLine>>,
    checks: Vec<Check>,
    bodies: Vec<Block<Line>>,
}

impl Model for Script {
    ghost use Rattle.std.specs.Prelude.{◌≤◌, length, All};
    ghost use Rattle.pth_line.specs.Script.{Sections};

    ghost Value = { Sections };

    ghost view = { λ s. record { handlers = s.handlers.items; checks = s.checks.items; bodies = s.bodies.items } };

    ghost invariant = { λ s. (1 ≤ length s.bodies.items) × (length s.bodies.items ≤ 256) × All (λ acts. length acts ≤ 64) s.handlers.items };
}

// By hand, so that letting one go is one call in each proof.
impl Drop for Script {
    fn drop(self) {
        let Script {
            handlers: _,
            checks: _,
            bodies: _,
        } = self;
    }
}

impl Script {
    ghost use Rattle.pth_line.specs.LineSteps.{line_at};
    ghost use Rattle.pth_line.specs.Script.{act_at};

    /// A script of these sections.
    pub fn new(
        handlers: Vec<Block<ActLine>>,
        checks: Vec<Check>,
        bodies: Vec<Block<Line>>,
    ) -> Script
        requires some { 1 ≤ vec_len bodies }
        requires few { vec_len bodies ≤ 256 }
        requires short { All (λ acts. length acts ≤ 64) handlers.items }
        ensures { result ≡ record { handlers = handlers.items; checks = checks.items; bodies = bodies.items } }
    {
        Script {
            handlers,
            checks,
            bodies,
        }
    }

    /// The line at which a thread stands, and none after the last of its body.
    fn line(&self, frame: &Frame) -> Option<&Line>
        ensures line { option_copied result ≡ line_at self.now.bodies frame.now }
        ensures next_fits { OnSome result (frame.now.line + 1 < 2 ^ 64) }
    {
        self.bodies.get(frame.body)?.get(frame.line)
    }

    /// A check that is defined.
    fn check_line(&self, check: usize) -> Option<&Check>
        ensures { option_copied result ≡ slice_get self.now.checks check }
    {
        self.checks.get(check)
    }

    /// The act of a handler at an index, and none after its last.
    fn act_line(&self, handler: usize, index: usize) -> Option<&ActLine>
        ensures act { option_copied result ≡ act_at self.now.handlers handler index }
        ensures ends { 64 ≤ index → IsNone result }
    {
        self.handlers.get(handler)?.get(index)
    }
}

#[tactic(auto, unfolding(crate::specs::Script::functions_of, crate::specs::LineSteps::stepped))]
impl Program for Script {
    ghost use Rattle.pth_line.specs.Script.{functions_of};

    type State = Frame;

    type Shared = Cells;

    ghost functions = { functions_of };

    fn shared(&self, _alloc: Global) -> Result<Cells, OutOfMemory> {
        Ok(Cells { cells: [0; 64] })
    }

    fn bodies(&self) -> u32 {
        self.bodies.len() as u32
    }

    fn start(&self, alloc: Global, body: BodyId, arg: i64) -> Result<Frame, OutOfMemory> {
        let mut registers = [0; 16];
        registers[0] = arg;
        Ok(Frame {
            body: body.0 as usize,
            line: 0,
            registers,
            error: 0,
            buffer: Bytes::from_slice(alloc, &[])?,
            message: 0,
            owed: Owed::Nothing,
        })
    }

    fn step(
        &self,
        alloc: Global,
        state: &mut Frame,
        shared: &mut Cells,
        answer: &Answer,
    ) -> Result<Call, OutOfMemory> {
        state.hear(shared, answer)?;
        match self.line(state) {
            Some(line) => line.does(alloc, state, shared),
            None => Ok(Call::Exit(0)),
        }
    }

    fn check(&self, check: CheckId, arg: i64, shared: &Cells) -> bool {
        match self.check_line(check.0 as usize) {
            Some(check) => check.holds(shared, &arg),
            None => false,
        }
    }

    fn act(&self, handler: HandlerId, arg: i64, index: u32, shared: &mut Cells) -> Option<Act> {
        let line = self.act_line(handler.0 as usize, index as usize)?;
        Some(line.act(shared, &arg))
    }
}
