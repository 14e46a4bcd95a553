//! A program that is written against POSIX, as a program of the machine.

ghost use Rattle.std.specs.Prelude.{◌≡◌, [], ◌∷◌, ◌++◌, IfOk};
ghost use Rattle.pth_base.specs.declared.call.Call.{Call};
ghost use Rattle.pth_posix.specs.Plan.{plan};
ghost use Rattle.pth_posix.specs.declared.plan.Planned.TheVariants.{Calls};

use crate::panswer::PAnswer;
use crate::pcall::PCall;
use crate::plan::{Planned, plan};
use crate::posix_program::PosixProgram;
use pth_base::act::Act;
use pth_base::answer::Answer;
use pth_base::call::Call;
use pth_base::ids::{BodyId, CheckId, HandlerId};
use pth_base::memory::OutOfMemory;
use pth_base::program::Program;
use std::alloc::Global;
use std::marker::Model;
use std::slice;

/// Where a thread stands: in its body, and in the plan of its POSIX call.
pub struct PosixThread<S> {
    state: S,
    call: PCall,
    got: Vec<Answer>,
}

impl<S> Model for PosixThread<S> {
    ghost use Rattle.pth_posix.specs.Posix.{PosixThreadOf};

    ghost Value = { PosixThreadOf S };

    ghost view = { λ t. record { state = t.state; call = t.call; got = t.got.items } };
}

// By hand, so that letting one go is one call in each proof.
impl<S: Drop> Drop for PosixThread<S> {
    fn drop(self) {
        let PosixThread {
            state: _,
            call: _,
            got: _,
        } = self;
    }
}

impl<S: Drop> PosixThread<S> {
    ghost use Rattle.pth_posix.specs.Posix.{heard};

    // What the plan says with one answer more. The answer is kept if the plan goes on; most plans end with their first.
    #[inline(always)]
    fn add_answer(&mut self, answer: &Answer) -> Result<Planned, OutOfMemory>
        ensures next { IfOk result (λ x. x ≡ plan self.old.call (self.old.got ++ answer.now ∷ [])) }
        ensures state { self.new.state ≡ self.old.state }
        ensures heard { IfOk result (λ x. (c : Call) → x ≡ Calls c → self.new ≡ heard answer.now self.old) }
    {
        if self.got.is_empty() {
            if let Planned::Answers(given) = plan(&self.call, slice::from_ref(answer)) {
                return Ok(Planned::Answers(given));
            }
        }
        self.got.push(answer.copy()?)?;
        Ok(plan(&self.call, self.got.as_slice()))
    }
}

/// A program that is written against POSIX, as a program of the machine. A step of a thread gives the next call of Pth that `plan` has, or
/// hands the answer of `plan` to the program.
#[derive(Drop)]
pub struct Posix<Q> {
    program: Q,
}

impl<Q: PosixProgram> Posix<Q> {
    ghost use Rattle.pth_posix.specs.Posix.{begun, begins};

    /// This program, as one of the machine.
    pub fn new(program: Q) -> Posix<Q>
        ensures { result ≡ record { program = program } }
    {
        Posix { program }
    }

    // The program takes an answer, and the POSIX call that it gives begins.
    #[inline(always)]
    fn begin_next(
        &self,
        alloc: Global,
        thread: &mut PosixThread<Q::State>,
        shared: &mut Q::Shared,
        answer: &PAnswer,
    ) -> Result<Call, OutOfMemory>
        ensures { IfOk result (λ call. record { call = call; state = thread.new; shared = shared.new }
            ≡ begins ((Q.posix_functions self.now.program).step thread.old.state shared.old answer.now)) }
    {
        let call = self.program.step(alloc, &mut thread.state, shared, answer)?;
        thread.call = call;
        thread.got.clear();
        Ok(match plan(&call, &[]) {
            Planned::Calls(call) => call,
            Planned::Answers(_) => Call::Plain,
        })
    }
}

#[tactic(auto, unfolding(crate::specs::Posix::functions_of_posix))]
impl<Q: PosixProgram> Program for Posix<Q> {
    ghost use Rattle.pth_posix.specs.Posix.{functions_of_posix};

    type State = PosixThread<Q::State>;

    type Shared = Q::Shared;

    ghost functions = { λ x. functions_of_posix (Q.posix_functions x.program) };

    fn shared(&self, alloc: Global) -> Result<Q::Shared, OutOfMemory> {
        self.program.shared(alloc)
    }

    fn bodies(&self) -> u32 {
        self.program.bodies()
    }

    fn start(
        &self,
        alloc: Global,
        body: BodyId,
        arg: i64,
    ) -> Result<PosixThread<Q::State>, OutOfMemory> {
        let state = self.program.start(alloc, body, arg)?;
        Ok(PosixThread {
            state,
            call: PCall::Nothing,
            got: Vec::new(alloc),
        })
    }

    fn step(
        &self,
        alloc: Global,
        thread: &mut PosixThread<Q::State>,
        shared: &mut Q::Shared,
        answer: &Answer,
    ) -> Result<Call, OutOfMemory> {
        match thread.add_answer(answer)? {
            Planned::Calls(call) => Ok(call),
            Planned::Answers(answer) => self.begin_next(alloc, thread, shared, &answer),
        }
    }

    fn check(&self, check: CheckId, arg: i64, shared: &Q::Shared) -> bool {
        self.program.check(check, arg, shared)
    }

    fn act(&self, handler: HandlerId, arg: i64, index: u32, shared: &mut Q::Shared) -> Option<Act> {
        self.program.act(handler, arg, index, shared)
    }
}
