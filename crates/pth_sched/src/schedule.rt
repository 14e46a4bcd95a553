//! The parts of a run: a thread is taken, it makes a step, and its turn is closed.

ghost use Rattle.std.specs.Prelude.{◌≡◌, ◌≢◌, ◌⊎◌, ◌≤◌, ◌+◌, ◌<◌, ℕ, [], true, false, Some, None, is_some, IsSome, IfSome, IfOk, OnOk, OnErr, length};
ghost use Rattle.pth_base.specs.Cut.{IsCut};
ghost use Rattle.pth_base.specs.Limits.{last_moment, most_steps, IsGreatestPriority};
ghost use Rattle.pth_kernel.specs.Kernel.{kernel_of};
ghost use Rattle.pth_model.specs.Changes.{goes_on};
ghost use Rattle.pth_model.specs.Course.{Course, HasHistory, within};
ghost use Rattle.pth_model.specs.Part.{is_idle, owes_after, turn_after, moves, moves_by, takes, steps, closes, part};
ghost use Rattle.pth_model.specs.Pass.{moment, pass, to_wake};
ghost use Rattle.pth_model.specs.Run.{stops as run_stops};
ghost use Rattle.pth_model.specs.State.{Control, Given};
ghost use Rattle.pth_world.specs.Frame.{runs_after};
ghost use Rattle.pth_world.specs.Leading.{AllAwaitRightly, AwaitsRightly};
ghost use Rattle.pth_world.specs.Shows.{Shows};
ghost use Rattle.pth_world.specs.WellFormed.{WellFormed};
ghost use Rattle.pth_end.specs.Whole.{Whole};
ghost use Rattle.pth_sched.specs.MachineOf.{IsGoing, HasUpperBound, machine_stops};
ghost use Rattle.pth_sched.specs.Running.{Stands, StandsAt, Keeps, Rests, Makes, GoesOn, BreaksOff, TurnGoesOn, TurnBreaksOff, IsBetweenTurns};

use crate::pass_room::PassRoom;
use crate::passes::{pass, pass_unless_quiescent};
use crate::quiescence::Quiescence;
use crate::turns::{end_turn, go_on, next, ready_new};
use pth_base::ids::{MAIN, Micros, Tid};
use pth_base::mark::Mark;
use pth_base::marks::Marks;
use pth_base::memory::OutOfMemory;
use pth_base::outcome::Outcome;
use pth_base::program::Program;
use pth_kernel::kernel::Kernel;
use pth_model::next::Next;
use pth_queue::queue::Queue;
use pth_world::world::World;
use std::alloc::Global;
use std::marker::Model;

/// A world with the turn that it is in, and room for passes.
pub struct Schedule<P: Program> {
    room: PassRoom,
    world: World<P>,
    quiescence: Quiescence,
    gave: Option<Tid>,
    turns: u64,
    steps: u64,
    outcome: Outcome,
}

impl<P: Program> Model for Schedule<P> {
    ghost use Rattle.std.specs.Prelude.{option_map};
    ghost use Rattle.pth_threads.specs.Threads.{number_of};
    ghost use Rattle.pth_sched.specs.Quiescence.{IsKnownQuiescent};
    ghost use Rattle.pth_sched.specs.MachineOf.{MachineOf};

    ghost Value = { MachineOf P P.State P.Shared };

    ghost view = { λ m. record {
      world = m.world;
      turn = record { turns = m.turns; steps = m.steps; gave = option_map number_of m.gave; outcome = m.outcome };
    } };

    ghost invariant = { λ m. IsKnownQuiescent m.world m.quiescence.until };
}

// By hand, so that letting one go is one call in each proof.
impl<P: Program> Drop for Schedule<P> {
    fn drop(self) {
        let Schedule {
            room: _,
            world: _,
            quiescence: _,
            gave: _,
            turns: _,
            steps: _,
            outcome: _,
        } = self;
    }
}

impl<P: Program> Schedule<P> {
    /// The main thread alone, ready (`pth_init`), at the moment of the kernel. Base priorities go from `-top` to `top`, the
    /// greatest, which is from 5 to 20.
    pub fn new(
        alloc: Global,
        program: P,
        kernel: Kernel,
        top: u8,
    ) -> Result<Schedule<P>, OutOfMemory>
        requires { IsGreatestPriority top }
        ensures stands { IfOk result (λ m. StandsAt P.functions (record { program = program; kernel = kernel_of kernel; top = top }) 0 m) }
        ensures rests { IfOk result (λ m. Rests m) }
        ensures steps { IfOk result (λ m. m.turn.steps ≡ 0) }
        ensures outcome { IfOk result (λ m. m.turn.outcome ≡ Outcome.Running) }
    {
        let room = PassRoom::new(alloc)?;
        let world = World::new(alloc, program, kernel, top)?;
        Ok(Schedule {
            room,
            world,
            quiescence: Quiescence {
                until: 0,
                dirty: false,
            },
            gave: None,
            turns: 0,
            steps: 0,
            outcome: Outcome::Running,
        })
    }

    /// How many steps were made.
    pub fn steps(&self) -> u64
        ensures { result ≡ self.now.turn.steps }
    {
        self.steps
    }

    /// How many turns began.
    pub fn turns(&self) -> u64
        ensures { result ≡ self.now.turn.turns }
    {
        self.turns
    }

    /// How the run stands.
    pub fn outcome(&self) -> Outcome
        ensures { result ≡ self.now.turn.outcome }
    {
        self.outcome
    }

    /// The program with its threads.
    pub fn world(&self) -> &World<P>
        ensures { result.now ≡ self.now.world }
    {
        &self.world
    }

    // The new threads become ready, and one thread is dispatched.
    fn take(&mut self, marks: &mut Marks) -> Result<(), OutOfMemory>
        requires going { IsGoing self.old }
        requires ranks { HasUpperBound self.old }
        requires few { self.old.turn.steps ≤ most_steps }
        requires nobody { self.old.world.scheduler.running ≡ None }
        requires over { self.old.turn.gave ≡ None }
        requires some { 0 < length self.old.world.threads.queues.ready + length self.old.world.threads.queues.new }
        ensures ok { OnOk result ((c : Course P P.State P.Shared) → Stands self.old c → HasHistory c → Makes self.new marks.old marks.new (takes c.turn c.state)) }
        ensures stands { OnOk result ((c : Course P P.State P.Shared) → Stands self.old c → Stands self.new (takes c.turn c.state)) }
        ensures err { OnErr result ((c : Course P P.State P.Shared) → Stands self.old c → IsCut marks.old marks.new (takes c.turn c.state).marks) }
        ensures going { OnOk result (IsGoing self.new) }
        ensures ranks { OnOk result (HasUpperBound self.new) }
        ensures steps { self.new.turn.steps ≡ self.old.turn.steps }
    {
        ready_new(&mut self.world);
        let t = next(&self.world);
        let rank = self.world.ready_rank(t);
        let turn = self.world.dispatch(t);
        self.turns += 1;
        marks.push(Mark::Dispatch {
            turn: self.turns,
            at: self.world.time(),
            tid: t,
            rank,
            waited: turn.waited,
            allowed: turn.allowed,
        })
    }

    // What a call of thread t leads to.
    fn settle(&mut self, t: Tid, next: Next)
        requires whole { WellFormed self.old.world }
        requires runs { self.old.world.scheduler.running ≡ runs_after t.0 next }
        ensures shows { (k : Control P P.State P.Shared) → Shows self.old.world k → Shows self.new.world (owes_after t.0 next k) }
        ensures turn { self.new.turn ≡ turn_after t.0 next self.old.turn }
        ensures whole { WellFormed self.new.world }
        ensures same { self.new.world ≡ record self.old.world { threads = record self.old.world.threads { progress = self.new.world.threads.progress } } }
    {
        match next {
            Next::Done(answer) => self.world.owe(t, answer),
            Next::Yields(answer) => {
                self.world.owe(t, answer);
                self.gave = Some(t);
            }
            Next::Blocks => self.gave = Some(t),
            Next::Ended(value) => {
                if t.0 == MAIN {
                    self.outcome = Outcome::Ended(value);
                }
                self.gave = Some(t);
            }
            Next::Killed => self.outcome = Outcome::Killed,
        }
    }

    // The thread that runs makes a step.
    fn step(&mut self, t: Tid, marks: &mut Marks) -> Result<(), OutOfMemory>
        requires going { IsGoing self.old }
        requires ranks { HasUpperBound self.old }
        requires few { self.old.turn.steps ≤ most_steps }
        requires runs { self.old.world.scheduler.running ≡ Some t.0 }
        requires over { self.old.turn.gave ≡ None }
        ensures ok { OnOk result ((c : Course P P.State P.Shared) → Stands self.old c → AwaitsRightly t.0 c.state → Makes self.new marks.old marks.new (steps P.functions c.turn t.0 c.state)) }
        ensures err { OnErr result ((c : Course P P.State P.Shared) → Stands self.old c → AwaitsRightly t.0 c.state → IsCut marks.old marks.new (steps P.functions c.turn t.0 c.state).marks) }
        ensures going { OnOk result (IsGoing self.new) }
        ensures ranks { OnOk result (HasUpperBound self.new) }
        ensures steps { OnOk result (self.new.turn.steps ≡ self.old.turn.steps + 1) }
        ensures still { OnErr result (self.new.turn.steps ≡ self.old.turn.steps) }
    {
        let next = match go_on(&mut self.world, &mut self.quiescence, t, marks) {
            Ok(next) => next,
            Err(e) => {
                self.quiescence.until = 0;
                return Err(e);
            }
        };
        self.steps += 1;
        self.settle(t, next);
        Ok(())
    }

    // The turn of thread t is over: the ready threads rise, t is put back unless it has ended, time goes on, and a pass is
    // made.
    fn close(&mut self, t: Tid, marks: &mut Marks) -> Result<(), OutOfMemory>
        requires going { IsGoing self.old }
        requires ranks { HasUpperBound self.old }
        requires few { self.old.turn.steps ≤ most_steps }
        requires over { self.old.turn.gave ≡ Some t.0 }
        ensures ok { OnOk result ((c : Course P P.State P.Shared) → Stands self.old c
            → Makes self.new marks.old marks.new (closes P.functions c.turn t.0 c.state)) }
        ensures err { OnErr result ((c : Course P P.State P.Shared) → Stands self.old c
            → IsCut marks.old marks.new (closes P.functions c.turn t.0 c.state).marks) }
        ensures going { OnOk result (IsGoing self.new) }
        ensures ranks { OnOk result (HasUpperBound self.new) }
        ensures steps { self.new.turn.steps ≡ self.old.turn.steps }
        ensures gave { OnOk result (self.new.turn.gave ≡ None) }
        ensures running { OnOk result (self.new.world.scheduler.running ≡ None) }
        ensures outcome { OnOk result (self.new.turn.outcome ≡ self.old.turn.outcome) }
    {
        end_turn(&mut self.world, t);
        self.gave = None;
        pass_unless_quiescent(
            &mut self.world,
            &mut self.room,
            &mut self.quiescence,
            t,
            marks,
        )
    }

    /// A pass over the waiting threads. After an error the schedule may only be dropped.
    pub fn pass(&mut self, marks: &mut Marks) -> Result<(), OutOfMemory>
        requires keeps { Keeps self.old }
        ensures ok { OnOk result ((c : Course P P.State P.Shared) → Stands self.old c
            → Makes self.new marks.old marks.new (within c.turn (pass P.functions c.state))) }
        ensures err { OnErr result ((c : Course P P.State P.Shared) → Stands self.old c
            → IsCut marks.old marks.new (pass P.functions c.state).marks) }
        ensures wanted { OnErr result ((c : Course P P.State P.Shared) → Stands self.old c → to_wake P.functions c.state ≢ []) }
        ensures keeps { OnOk result (Keeps self.new) }
        ensures whole { OnOk result (Whole self.old.world → Whole self.new.world) }
        ensures turn { self.new.turn ≡ self.old.turn }
        ensures scheduler { OnOk result (self.new.world.scheduler ≡ self.old.world.scheduler) }
        ensures kernel { OnOk result (self.new.world.kernel ≡ self.old.world.kernel) }
    {
        self.quiescence = Quiescence {
            until: 0,
            dirty: false,
        };
        pass(&mut self.world, &mut self.room, marks)
    }

    // Time moves to a moment, and a pass is made.
    fn move_to(&mut self, moment: Micros, marks: &mut Marks) -> Result<(), OutOfMemory>
        requires keeps { Keeps self.old }
        requires onward { self.old.world.kernel.now ≤ moment }
        requires within { moment ≤ last_moment }
        ensures ok { OnOk result ((c : Course P P.State P.Shared) → Stands self.old c
            → Makes self.new marks.old marks.new (moves_by P.functions c.turn (Some moment) c.state)) }
        ensures err { OnErr result ((c : Course P P.State P.Shared) → Stands self.old c
            → IsCut marks.old marks.new (moves_by P.functions c.turn (Some moment) c.state).marks) }
        ensures keeps { OnOk result (Keeps self.new) }
        ensures whole { OnOk result (Whole self.old.world → Whole self.new.world) }
        ensures turn { self.new.turn ≡ self.old.turn }
        ensures scheduler { OnOk result (self.new.world.scheduler ≡ self.old.world.scheduler) }
        ensures kernel { OnOk result (self.new.world.kernel ≡ record self.old.world.kernel { now = moment }) }
    {
        self.quiescence = Quiescence {
            until: 0,
            dirty: false,
        };
        self.world.set_time(moment);
        marks.push(Mark::Moved { at: moment })?;
        self.pass(marks)
    }

    /// Time moves to the next moment at which something comes to a descriptor or for which a thread waits, and a pass is made;
    /// the answer is whether there is such a moment. After an error the schedule may only be dropped.
    pub fn idle(&mut self, marks: &mut Marks) -> Result<bool, OutOfMemory>
        requires keeps { Keeps self.old }
        ensures some { IfOk result (λ moved. (c : Course P P.State P.Shared) → Stands self.old c
            → is_some (moment P.functions c.state) ≡ moved) }
        ensures moves { IfOk result (λ moved. moved ≡ true → (c : Course P P.State P.Shared) → Stands self.old c
            → Makes self.new marks.old marks.new (moves P.functions c.turn c.state)) }
        ensures stays { IfOk result (λ moved. moved ≡ false → (self.new ≡ self.old) × (marks.new ≡ marks.old)) }
        ensures wanted { OnErr result ((c : Course P P.State P.Shared) → Stands self.old c → is_some (moment P.functions c.state) ≡ true) }
        ensures err { OnErr result ((c : Course P P.State P.Shared) → Stands self.old c
            → IsCut marks.old marks.new (moves P.functions c.turn c.state).marks) }
        ensures keeps { OnOk result (Keeps self.new) }
        ensures whole { OnOk result (Whole self.old.world → Whole self.new.world) }
        ensures turn { self.new.turn ≡ self.old.turn }
        ensures runs { OnOk result (self.new.world.scheduler.running ≡ self.old.world.scheduler.running) }
    {
        match self.room.next_moment(&self.world) {
            Some(moment) => {
                self.move_to(moment, marks)?;
                Ok(true)
            }
            None => Ok(false),
        }
    }

    // Idle time moves on; where there is no moment to which it moves, the run is stalled.
    fn move_on(&mut self, marks: &mut Marks) -> Result<(), OutOfMemory>
        requires keeps { Keeps self.old }
        ensures ok { OnOk result ((c : Course P P.State P.Shared) → Stands self.old c
            → Makes self.new marks.old marks.new (moves P.functions c.turn c.state)) }
        ensures err { OnErr result ((c : Course P P.State P.Shared) → Stands self.old c
            → IsCut marks.old marks.new (moves P.functions c.turn c.state).marks) }
        ensures keeps { OnOk result (Keeps self.new) }
        ensures steps { self.new.turn.steps ≡ self.old.turn.steps }
    {
        if !self.idle(marks)? {
            self.outcome = Outcome::Stalled;
        }
        Ok(())
    }

    // Whether nothing is new or ready.
    fn is_idle(&self) -> bool
        requires { IsGoing self.now }
        ensures idle { (k : Control P P.State P.Shared) → Shows self.now.world k → result ≡ is_idle k }
        ensures some { result ≡ false → 0 < length self.now.world.threads.queues.ready + length self.now.world.threads.queues.new }
    {
        self.world.is_empty(Queue::New) && self.world.is_empty(Queue::Ready)
    }

    // The part that comes next while nobody runs: a thread is taken, or where nothing is new or ready, idle time moves on.
    #[inline(never)]
    fn take_or_move(&mut self, marks: &mut Marks) -> Result<(), OutOfMemory>
        requires keeps { Keeps self.old }
        requires few { self.old.turn.steps ≤ most_steps }
        requires goes { self.old.turn.outcome ≡ Outcome.Running }
        requires over { self.old.turn.gave ≡ None }
        requires nobody { self.old.world.scheduler.running ≡ None }
        ensures ok { OnOk result ((c : Course P P.State P.Shared) → Stands self.old c → HasHistory c → Makes self.new marks.old marks.new (part P.functions c.turn c.state)) }
        ensures stands { OnOk result ((c : Course P P.State P.Shared) → Stands self.old c → Stands self.new (part P.functions c.turn c.state)) }
        ensures err { OnErr result ((c : Course P P.State P.Shared) → Stands self.old c → IsCut marks.old marks.new (part P.functions c.turn c.state).marks) }
        ensures going { OnOk result (IsGoing self.new) }
        ensures ranks { OnOk result (HasUpperBound self.new) }
        ensures steps { self.new.turn.steps ≡ self.old.turn.steps }
    {
        if self.is_idle() {
            return self.move_on(marks);
        }
        self.take(marks)
    }

    // One part of the run.
    fn part(&mut self, marks: &mut Marks) -> Result<(), OutOfMemory>
        requires keeps { Keeps self.old }
        requires few { self.old.turn.steps ≤ most_steps }
        ensures ok { OnOk result ((c : Course P P.State P.Shared) → Stands self.old c → AllAwaitRightly c.state → HasHistory c
            → Makes self.new marks.old marks.new (part P.functions c.turn c.state)) }
        ensures stands { OnOk result ((c : Course P P.State P.Shared) → Stands self.old c → AllAwaitRightly c.state → Stands self.new (part P.functions c.turn c.state)) }
        ensures err { OnErr result ((c : Course P P.State P.Shared) → Stands self.old c → AllAwaitRightly c.state → IsCut marks.old marks.new (part P.functions c.turn c.state).marks) }
        ensures going { OnOk result (IsGoing self.new) }
        ensures ranks { OnOk result (HasUpperBound self.new) }
        ensures within { (to : ℕ) → machine_stops to self.old ≡ false → self.old.turn.steps ≤ to → self.new.turn.steps ≤ to }
    {
        match self.outcome {
            Outcome::Running => {}
            _ => return Ok(()),
        }
        if let Some(t) = self.gave {
            return self.close(t, marks);
        }
        if let Some(t) = self.world.running() {
            return self.step(t, marks);
        }
        self.take_or_move(marks)
    }

    // Whether a run to this number of steps goes no further: a next step would begin, or an outcome ended it.
    fn stops(&self, to: u64) -> bool
        ensures stops { result ≡ machine_stops to self.now }
        ensures run { (c : Course P P.State P.Shared) → Stands self.now c → result ≡ run_stops to c }
    {
        match self.outcome {
            Outcome::Running => {}
            _ => return true,
        }
        self.gave.is_none() && self.world.running().is_some() && to <= self.steps
    }

    /// Goes on to this number of steps in all, and by the parts after them that are no steps. After an error the schedule
    /// may only be dropped.
    pub fn advance(&mut self, to: u64, marks: &mut Marks) -> Result<(), OutOfMemory>
        requires keeps { Keeps self.old }
        requires more { self.old.turn.steps ≤ to }
        requires few { to ≤ most_steps }
        ensures goes_on { OnOk result ((g : Given P) (i : ℕ) → StandsAt P.functions g i self.old → GoesOn P.functions g to i self.new marks.old marks.new) }
        ensures breaks_off { OnErr result ((g : Given P) (i : ℕ) → StandsAt P.functions g i self.old → BreaksOff P.functions g to i marks.old marks.new) }
        ensures rests { OnOk result (Rests self.new) }
        ensures within { self.new.turn.steps ≤ to }
        ensures stops { OnOk result (machine_stops to self.new ≡ true) }
    {
        while !self.stops(to) {
            self.part(marks)?;
        }
        Ok(())
    }

    /// Goes on as `advance` does, and no further than to the end of a turn. After an error the schedule may only be dropped.
    pub fn turn(&mut self, to: u64, marks: &mut Marks) -> Result<(), OutOfMemory>
        requires keeps { Keeps self.old }
        requires more { self.old.turn.steps ≤ to }
        requires few { to ≤ most_steps }
        ensures goes_on { OnOk result ((g : Given P) (i : ℕ) → StandsAt P.functions g i self.old → TurnGoesOn P.functions g to i self.new marks.old marks.new) }
        ensures breaks_off { OnErr result ((g : Given P) (i : ℕ) → StandsAt P.functions g i self.old → TurnBreaksOff P.functions g to i marks.old marks.new) }
        ensures rests { OnOk result (Rests self.new) }
        ensures within { self.new.turn.steps ≤ to }
        ensures stops { OnOk result ((machine_stops to self.new ≡ true) ⊎ IsBetweenTurns self.new) }
    {
        while !self.stops(to) {
            if let Some(t) = self.gave {
                return self.close(t, marks);
            }
            self.part(marks)?;
        }
        Ok(())
    }
}
