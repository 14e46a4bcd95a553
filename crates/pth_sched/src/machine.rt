//! A machine that runs a program.
//!
//! `failed` is kept next to the schedule: after want of memory nothing holds of the world, and its clauses need no condition.

ghost use Rattle.std.specs.Prelude.{◌≡◌, ◌≢◌, ◌⊎◌, ◌≤◌, ◌+◌, ◌↔◌, ℕ, [], true, false, Some, None, map, IfSome, IfOk, OnOk, OnErr};
ghost use Rattle.pth_base.specs.Cut.{IsCut};
ghost use Rattle.pth_base.specs.Limits.{most_steps, IsGreatestPriority};
ghost use Rattle.pth_kernel.specs.Kernel.{kernel_of};
ghost use Rattle.pth_model.specs.Allowance.{standing_of, waited};
ghost use Rattle.pth_model.specs.Course.{Course, HasHistory, within};
ghost use Rattle.pth_queue.specs.declared.queue.Queue.TheVariants as queue;
ghost use Rattle.pth_model.specs.State.{Given, allowance_of, now_of, wait_of};
ghost use Rattle.pth_model.specs.Living.{live as live_threads};
ghost use Rattle.pth_model.specs.Part.{moves};
ghost use Rattle.pth_model.specs.Pass.{moment, pass, to_wake};
ghost use Rattle.pth_model.specs.Run.{run};
ghost use Rattle.pth_model.specs.Standing.{Standing};
ghost use Rattle.pth_threads.specs.Threads.{number_of};
ghost use Rattle.pth_world.specs.WellFormed.{WellFormed};
ghost use Rattle.pth_end.specs.Whole.{Whole};
ghost use Rattle.pth_sched.specs.Running.{Stands, StandsAt, Makes, MakesPart, GoesOn, BreaksOff, KeepsLaws, TurnGoesOn, TurnBreaksOff, IsAtStep, IsBetweenTurns};

use crate::live::live;
use crate::schedule::Schedule;
use pth_base::ids::{Micros, Tid};
use pth_base::marks::Marks;
use pth_base::memory::OutOfMemory;
pub use pth_base::outcome::Outcome;
use pth_base::program::Program;
use pth_kernel::kernel::Kernel;
use pth_world::world::World;
use std::alloc::Global;
use std::marker::Model;

/// A program that runs, in pieces of as many steps as are asked for.
pub struct Machine<P: Program> {
    schedule: Schedule<P>,
    failed: bool,
}

impl<P: Program> Model for Machine<P> {
    ghost use Rattle.std.specs.Prelude.{◌≡◌, false, if◌then◌else◌};
    ghost use Rattle.pth_base.specs.declared.outcome.Outcome.TheVariants.{OutOfMemory};
    ghost use Rattle.pth_sched.specs.MachineOf.{MachineOf};
    ghost use Rattle.pth_sched.specs.Running.{Rests};

    ghost Value = { MachineOf P P.State P.Shared };

    ghost view = { λ m. record m.schedule { turn = record m.schedule.turn { outcome = if m.failed then OutOfMemory else m.schedule.turn.outcome } } };

    ghost invariant = { λ m. (m.failed ≡ false → Rests m.schedule) };
}

// By hand, so that letting one go is one call in each proof.
impl<P: Program> Drop for Machine<P> {
    fn drop(self) {
        let Machine {
            schedule: _,
            failed: _,
        } = self;
    }
}

impl<P: Program> Machine<P> {
    /// The main thread alone, ready (`pth_init`), at the moment of the kernel. Base priorities go from `-top` to `top`, the
    /// greatest, which is from 5 to 20.
    pub fn new(
        alloc: Global,
        program: P,
        kernel: Kernel,
        top: u8,
    ) -> Result<Machine<P>, OutOfMemory>
        requires { IsGreatestPriority top }
        ensures stands { IfOk result (λ m. StandsAt P.functions (record { program = program; kernel = kernel_of kernel; top = top }) 0 m) }
        ensures steps { IfOk result (λ m. m.turn.steps ≡ 0) }
        ensures outcome { IfOk result (λ m. m.turn.outcome ≡ Outcome.Running) }
    {
        let schedule = Schedule::new(alloc, program, kernel, top)?;
        Ok(Machine {
            schedule,
            failed: false,
        })
    }

    // How the run stands.
    fn outcome(&self) -> Outcome
        ensures { result ≡ self.now.turn.outcome }
    {
        if self.failed {
            Outcome::OutOfMemory
        } else {
            self.schedule.outcome()
        }
    }

    // Whether memory ran out.
    fn is_over(&self) -> bool
        ensures yes { result ≡ true → self.now.turn.outcome ≡ Outcome.OutOfMemory }
        ensures no { result ≡ false → self.now.turn.outcome ≢ Outcome.OutOfMemory }
    {
        matches!(self.outcome(), Outcome::OutOfMemory)
    }

    /// Makes the next `n` steps, and goes on by the parts after them that are no steps. Fewer steps are made where the run
    /// ends before. After an outcome that ends the run it answers the same again, and tells nothing.
    ///
    /// If the machine stood on a run, all marks of the run so far meet the laws of marks after the call, also where memory ended. As
    /// long as memory lasts the state meets the laws of runs too (`laws`).
    pub fn advance(&mut self, n: u64, marks: &mut Marks) -> Outcome
        requires few { self.old.turn.steps + n ≤ most_steps }
        ensures goes_on { result ≢ Outcome.OutOfMemory → (g : Given P) (i : ℕ) → StandsAt P.functions g i self.old → GoesOn P.functions g (self.old.turn.steps + n) i self.new marks.old marks.new }
        ensures breaks_off { result ≡ Outcome.OutOfMemory → (g : Given P) (i : ℕ) → StandsAt P.functions g i self.old → BreaksOff P.functions g (self.old.turn.steps + n) i marks.old marks.new }
        ensures laws { KeepsLaws P.functions self.old self.new marks.old marks.new }
        ensures running { (result ≡ Outcome.Running) ↔ ((self.new.turn.steps ≡ self.old.turn.steps + n) × IsAtStep self.new) }
        ensures steps { self.new.turn.steps ≤ self.old.turn.steps + n }
        ensures outcome { result ≡ self.new.turn.outcome }
        ensures again { self.old.turn.outcome ≢ Outcome.Running → (result ≡ self.old.turn.outcome) × (marks.new ≡ marks.old) }
    {
        match self.outcome() {
            Outcome::Running => {}
            outcome => return outcome,
        }
        let to = self.schedule.steps() + n;
        self.failed = self.schedule.advance(to, marks).is_err();
        self.outcome()
    }

    /// Goes on as `advance` does, and no further than to the end of a turn: it stops also after the first Close that it makes.
    pub fn turn(&mut self, n: u64, marks: &mut Marks) -> Outcome
        requires few { self.old.turn.steps + n ≤ most_steps }
        ensures goes_on { result ≢ Outcome.OutOfMemory → (g : Given P) (i : ℕ) → StandsAt P.functions g i self.old → TurnGoesOn P.functions g (self.old.turn.steps + n) i self.new marks.old marks.new }
        ensures breaks_off { result ≡ Outcome.OutOfMemory → (g : Given P) (i : ℕ) → StandsAt P.functions g i self.old → TurnBreaksOff P.functions g (self.old.turn.steps + n) i marks.old marks.new }
        ensures laws { KeepsLaws P.functions self.old self.new marks.old marks.new }
        ensures running { (result ≡ Outcome.Running) ↔ (((self.new.turn.steps ≡ self.old.turn.steps + n) × IsAtStep self.new) ⊎ IsBetweenTurns self.new) }
        ensures steps { self.new.turn.steps ≤ self.old.turn.steps + n }
        ensures outcome { result ≡ self.new.turn.outcome }
        ensures again { self.old.turn.outcome ≢ Outcome.Running → (result ≡ self.old.turn.outcome) × (marks.new ≡ marks.old) }
    {
        match self.outcome() {
            Outcome::Running => {}
            outcome => return outcome,
        }
        let to = self.schedule.steps() + n;
        self.failed = self.schedule.turn(to, marks).is_err();
        self.outcome()
    }

    /// One pass over the waiting threads while nobody runs, as the end of a turn and a move of idle time make it: those whose
    /// calls have what they wait for are ready. It wants memory only if there is one. pth(3) has no call for it. After an error
    /// the machine may only be dropped.
    pub fn pass(&mut self, marks: &mut Marks) -> Result<(), OutOfMemory>
        requires nobody { self.old.world.scheduler.running ≡ None }
        requires goes { self.old.turn.outcome ≡ Outcome.Running }
        ensures ok { OnOk result ((c : Course P P.State P.Shared) → Stands self.old c
            → Makes self.new marks.old marks.new (within c.turn (pass P.functions c.state))) }
        ensures err { OnErr result ((c : Course P P.State P.Shared) → Stands self.old c
            → IsCut marks.old marks.new (pass P.functions c.state).marks) }
        ensures wanted { OnErr result ((c : Course P P.State P.Shared) → Stands self.old c → to_wake P.functions c.state ≢ []) }
        ensures turn { OnOk result (self.new.turn ≡ self.old.turn) }
        ensures scheduler { OnOk result (self.new.world.scheduler ≡ self.old.world.scheduler) }
        ensures kernel { OnOk result (self.new.world.kernel ≡ self.old.world.kernel) }
        ensures failed { OnErr result (self.new.turn.outcome ≡ Outcome.OutOfMemory) }
        ensures whole { OnOk result (Whole self.old.world → Whole self.new.world) }
    {
        let passed = self.schedule.pass(marks);
        self.failed = passed.is_err();
        passed
    }

    /// One move of idle time: while nobody runs and nothing is new or ready, time moves to the least moment, in microseconds,
    /// that is later than now and at which something comes to a descriptor or for which a thread waits, and a pass is made.
    /// Where there is none, nothing changes, and the answer is `false`: the outcome stays Running. pth(3) has no call for it.
    /// After an error the machine may only be dropped.
    pub fn idle(&mut self, marks: &mut Marks) -> Result<bool, OutOfMemory>
        requires nobody { self.old.world.scheduler.running ≡ None }
        requires goes { self.old.turn.outcome ≡ Outcome.Running }
        requires none_new { self.old.world.threads.queues.new ≡ [] }
        requires none_ready { self.old.world.threads.queues.ready ≡ [] }
        ensures follows { IfOk result (λ moved. moved ≡ true → (g : Given P) (i : ℕ) → StandsAt P.functions g i self.old → MakesPart P.functions g i self.new marks.old marks.new) }
        ensures moves { IfOk result (λ moved. moved ≡ true → (c : Course P P.State P.Shared) → Stands self.old c
            → Makes self.new marks.old marks.new (moves P.functions c.turn c.state)) }
        ensures none { IfOk result (λ moved. (c : Course P P.State P.Shared) → Stands self.old c → (moved
            ≡ false) ↔ (moment P.functions c.state ≡ None)) }
        ensures stays { IfOk result (λ moved. moved ≡ false → (self.new ≡ self.old) × (marks.new ≡ marks.old)) }
        ensures wanted { OnErr result ((c : Course P P.State P.Shared) → Stands self.old c → moment P.functions c.state ≢ None) }
        ensures err { OnErr result ((c : Course P P.State P.Shared) → Stands self.old c
            → IsCut marks.old marks.new (moves P.functions c.turn c.state).marks) }
        ensures turn { OnOk result (self.new.turn ≡ self.old.turn) }
        ensures nobody { OnOk result (self.new.world.scheduler.running ≡ None) }
        ensures failed { OnErr result (self.new.turn.outcome ≡ Outcome.OutOfMemory) }
        ensures whole { OnOk result (Whole self.old.world → Whole self.new.world) }
    {
        let moved = self.schedule.idle(marks);
        self.failed = moved.is_err();
        moved
    }

    /// How many steps were made.
    pub fn steps(&self) -> u64
        ensures value { result ≡ self.now.turn.steps }
        ensures state { (c : Course P P.State P.Shared) → Stands self.now c → result ≡ c.turn.steps }
    {
        self.schedule.steps()
    }

    /// How many turns began.
    pub fn turns(&self) -> u64
        ensures value { result ≡ self.now.turn.turns }
        ensures state { (c : Course P P.State P.Shared) → Stands self.now c → result ≡ c.turn.turns }
    {
        self.schedule.turns()
    }

    /// How many threads were made so far.
    pub fn made(&self) -> u64
        ensures value { result ≡ self.now.world.threads.records.made }
        ensures state { (c : Course P P.State P.Shared) → Stands self.now c → result ≡ c.state.control.threads.made }
    {
        u64::from(self.schedule.world().threads().made())
    }

    /// How often another thread was dispatched since a thread became ready; none if it is not ready, and after want of memory.
    /// pth(3) has no call for it.
    pub fn waited(&self, t: Tid) -> Option<u64>
        ensures value { (c : Course P P.State P.Shared) → Stands self.now c → HasHistory c
            → result ≡ wait_of c.state.control t.0 }
        ensures failed { self.now.turn.outcome ≡ Outcome.OutOfMemory → result ≡ None }
    {
        if self.is_over() {
            return None;
        }
        self.schedule.world().waited(t)
    }

    /// How often another thread may be dispatched at most before a ready thread is, as things stand; none if it is not ready, and
    /// after want of memory. In a run it has waited at most so often. pth(3) has no call for it.
    pub fn allowed(&self, t: Tid) -> Option<u64>
        ensures value { (c : Course P P.State P.Shared) → Stands self.now c → HasHistory c
            → result ≡ allowance_of c.state.control t.0 }
        ensures in_time { (g : Given P) (i : ℕ) → StandsAt P.functions g i self.now → let x = (run P.functions g i).state.control.threads in
            IfSome result (λ n. (s : Standing) → standing_of t.0 (x.standing queue.Ready) ≡ Some s → waited x.trail s ≤ n) }
        ensures failed { self.now.turn.outcome ≡ Outcome.OutOfMemory → result ≡ None }
    {
        if self.is_over() {
            return None;
        }
        self.schedule.world().allowed(t)
    }

    /// The moment, in microseconds.
    pub fn now(&self) -> Micros
        ensures value { result ≡ self.now.world.kernel.now }
        ensures state { (c : Course P P.State P.Shared) → Stands self.now c → result ≡ now_of c.state.control }
    {
        self.schedule.world().time()
    }

    /// The program with its threads, of which as long as memory lasts all holds that holds of a world between two calls, so that
    /// it can be asked for its threads and for what they wait for.
    pub fn world(&self) -> &World<P>
        ensures world { result.now ≡ self.now.world }
        ensures whole { self.now.turn.outcome ≢ Outcome.OutOfMemory → WellFormed result.now }
    {
        self.schedule.world()
    }

    /// The numbers of the threads in the system that are not dead, the oldest first; none after want of memory.
    pub fn live(&self, alloc: Global) -> Result<Vec<Tid>, OutOfMemory>
        ensures live { IfOk result (λ v. (c : Course P P.State P.Shared) → Stands self.now c → map number_of v.items ≡ live_threads c.state) }
        ensures failed { self.now.turn.outcome ≡ Outcome.OutOfMemory → IfOk result (λ v. v.items ≡ []) }
    {
        if self.is_over() {
            return Ok(Vec::new(alloc));
        }
        live(self.schedule.world(), alloc)
    }
}
