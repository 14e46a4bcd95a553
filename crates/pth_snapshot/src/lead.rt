//! The way of a machine to a place.

ghost use Rattle.std.specs.Prelude.{◌≡◌, ◌≢◌, ◌≤◌, ◌<◌, ◌⊎◌, [], ℕ, not, false, IsTrue};
ghost use Rattle.pth_base.specs.Limits.{most_steps};
ghost use Rattle.pth_model.specs.Part.{Move, next_part, is_idle};
ghost use Rattle.pth_model.specs.Run.{run, stops_at, GoesUntil};
ghost use Rattle.pth_model.specs.State.{Control, Given};
ghost use Rattle.pth_sched.specs.Running.{StandsAt, IsAtStep, IsBetweenTurns};
ghost use Rattle.pth_world.specs.Shows.{Shows};
ghost use Rattle.pth_world.specs.Sound.{IsSound};
ghost use Rattle.pth_snapshot.specs.Leading.{ComesTo, IsOpened, Arrives, IsLed};
ghost use Rattle.pth_snapshot.specs.Place.{has_come};
ghost use Rattle.pth_snapshot.specs.declared.place.Kind.TheVariants as kind;

use crate::place::{Kind, Place};
use pth_base::marks::Marks;
use pth_base::outcome::Outcome;
use pth_base::program::Program;
use pth_queue::queue::Queue;
use pth_sched::machine::Machine;
use pth_world::world::World;

/// So many steps are made before the marks that they told are dropped.
const PIECE: u64 = 1000;

// No step is left, or none begins.
fn is_over(left: u64, outcome: Outcome) -> bool
    ensures over { IsTrue result → (left ≡ 0) ⊎ (outcome ≢ Outcome.Running) }
    ensures going { result ≡ false → (1 ≤ left) × (outcome ≡ Outcome.Running) }
{
    match outcome {
        Outcome::Running => left == 0,
        _ => true,
    }
}

// Makes steps until so many were made, or the run ends. The marks are dropped.
fn run_to<P: Program>(machine: &mut Machine<P>, to: u64, marks: &mut Marks) -> Outcome
    requires early { machine.old.turn.steps ≤ to }
    requires few { to ≤ most_steps }
    ensures comes { result ≢ Outcome.OutOfMemory → (g : Given P) (i : ℕ) → StandsAt P.functions g i machine.old
        → ComesTo P.functions g (stops_at P.functions g to) i machine.new }
    ensures outcome { result ≡ machine.new.turn.outcome }
    ensures steps { machine.new.turn.steps ≤ to }
    ensures running { result ≡ Outcome.Running → machine.new.turn.steps ≡ to }
{
    let mut left = to - machine.steps();
    'pieces: loop {
        marks.clear();
        let piece = left.min(PIECE);
        let outcome = machine.advance(piece, marks);
        left -= piece;
        if is_over(left, outcome) {
            return outcome;
        }
    }
}

// Closes the turn of the step of a number, if a Close follows that step at once.
fn open<P: Program>(machine: &mut Machine<P>, steps: u64, marks: &mut Marks) -> Outcome
    requires start { machine.old.turn.steps ≡ 0 }
    requires between { IsBetweenTurns machine.old }
    requires few { steps ≤ most_steps }
    ensures opened { result ≢ Outcome.OutOfMemory → (g : Given P) → StandsAt P.functions g 0 machine.old
        → IsOpened P.functions g steps machine.new }
    ensures outcome { result ≡ machine.new.turn.outcome }
    ensures running { result ≡ Outcome.Running → IsAtStep machine.new ⊎ IsBetweenTurns machine.new }
{
    if steps == 0 {
        return Outcome::Running;
    }
    match run_to(machine, steps - 1, marks) {
        Outcome::Running => {
            marks.clear();
            machine.turn(1, marks)
        }
        outcome => outcome,
    }
}

// Whether nothing is new or ready.
fn is_idle<P: Program>(w: &World<P>) -> bool
    requires { IsSound w.now.threads }
    ensures idle { (k : Control P P.State P.Shared) → Shows w.now k → result ≡ is_idle k }
    ensures none_new { IsTrue result → w.now.threads.queues.new ≡ [] }
    ensures none_ready { IsTrue result → w.now.threads.queues.ready ≡ [] }
{
    w.is_empty(Queue::New) && w.is_empty(Queue::Ready)
}

// Whether time moves next, and is earlier than a moment.
fn is_early<P: Program>(machine: &Machine<P>, moment: u64) -> bool
    requires { IsBetweenTurns machine.now }
    ensures come { (g : Given P) (i : ℕ) → StandsAt P.functions g i machine.now
        → has_come P.functions g moment i ≡ not result }
    ensures next { IsTrue result → (g : Given P) (i : ℕ) → StandsAt P.functions g i machine.now
        → next_part (run P.functions g i).state (run P.functions g i).turn ≡ Move }
    ensures sound { IsSound machine.now.world.threads }
    ensures early { IsTrue result → machine.now.world.kernel.now < moment }
    ensures none_new { IsTrue result → machine.now.world.threads.queues.new ≡ [] }
    ensures none_ready { IsTrue result → machine.now.world.threads.queues.ready ≡ [] }
{
    is_idle(machine.world()) && machine.now() < moment
}

// Moves time while it is earlier than a moment, and nothing is new or ready.
fn wait_until<P: Program>(machine: &mut Machine<P>, moment: u64, marks: &mut Marks) -> Outcome
    requires { IsBetweenTurns machine.old }
    ensures comes { result ≢ Outcome.OutOfMemory → (g : Given P) (i : ℕ) → StandsAt P.functions g i machine.old
        → (j : ℕ) × GoesUntil (has_come P.functions g moment) i j × Arrives P.functions g j result machine.new }
    ensures running { result ≡ Outcome.Running → machine.new.turn.outcome ≡ Outcome.Running }
    ensures memory { result ≡ Outcome.OutOfMemory → machine.new.turn.outcome ≡ Outcome.OutOfMemory }
{
    'moves: while is_early(machine, moment) {
        marks.clear();
        match machine.idle(marks) {
            Ok(true) => {}
            Ok(false) => return Outcome::Stalled,
            Err(_) => return Outcome::OutOfMemory,
        }
    }
    Outcome::Running
}

// Whether the run goes on, and no turn is open.
fn is_open<P: Program>(machine: &Machine<P>, outcome: Outcome) -> bool
    requires { outcome ≡ Outcome.Running → IsAtStep machine.now ⊎ IsBetweenTurns machine.now }
    ensures between { IsTrue result → IsBetweenTurns machine.now }
    ensures step { result ≡ false → (outcome ≢ Outcome.Running) ⊎ IsAtStep machine.now }
{
    matches!(outcome, Outcome::Running) && machine.world().running().is_none()
}

// The way to a place where no turn is open.
fn lead_open<P: Program>(machine: &mut Machine<P>, place: Place, marks: &mut Marks) -> Outcome
    requires start { machine.old.turn.steps ≡ 0 }
    requires between { IsBetweenTurns machine.old }
    requires few { place.steps ≤ most_steps }
    requires kind { place.kind ≡ kind.Open }
    ensures led { result ≢ Outcome.OutOfMemory → (g : Given P) → StandsAt P.functions g 0 machine.old
        → IsLed P.functions g place result machine.new }
    ensures running { result ≡ Outcome.Running → machine.new.turn.outcome ≡ Outcome.Running }
    ensures memory { result ≡ Outcome.OutOfMemory → machine.new.turn.outcome ≡ Outcome.OutOfMemory }
{
    let outcome = open(machine, place.steps, marks);
    if is_open(machine, outcome) {
        return wait_until(machine, place.now, marks);
    }
    outcome
}

/// Brings a machine from the start of its run to where a place leads, and answers how the run stands there. The marks are dropped.
pub fn lead<P: Program>(machine: &mut Machine<P>, place: Place, marks: &mut Marks) -> Outcome
    requires start { machine.old.turn.steps ≡ 0 }
    requires between { IsBetweenTurns machine.old }
    requires few { place.steps ≤ most_steps }
    ensures led { result ≢ Outcome.OutOfMemory → (g : Given P) → StandsAt P.functions g 0 machine.old
        → IsLed P.functions g place result machine.new }
    ensures running { result ≡ Outcome.Running → machine.new.turn.outcome ≡ Outcome.Running }
    ensures memory { result ≡ Outcome.OutOfMemory → machine.new.turn.outcome ≡ Outcome.OutOfMemory }
{
    match place.kind {
        Kind::Step => run_to(machine, place.steps, marks),
        Kind::Open => lead_open(machine, place, marks),
    }
}
