//! A program: main sends a worker on an errand, and waits for what it brings.

ghost use Rattle.std.specs.Prelude.{◌≡◌, ◌≢◌, ℕ};
ghost use Rattle.pth_base.specs.declared.outcome.Outcome.TheVariants.{Killed};
ghost use Rattle.pth_embedding.specs.Errand.{errand_functions, int_of};
ghost use Rattle.pth_laws.specs.Clean.{IsClean};
ghost use Rattle.pth_laws.specs.Orderly.{Orderly};
ghost use Rattle.pth_model.specs.Run.{run};
ghost use Rattle.pth_model.specs.State.{Given};

use pth_base::act::Act;
use pth_base::answer::Answer;
use pth_base::call::Call;
use pth_base::ids::{BodyId, CheckId, HandlerId};
use pth_base::memory::OutOfMemory;
use pth_base::program::Program;
use pth_laws::runs::laws;
use std::alloc::Global;

/// Body 0 is main's, and body 1 the worker's.
#[derive(Drop)]
pub struct Errand;

/// What a thread does next.
#[derive(Clone, Copy)]
pub enum Place {
    /// Main spawns the worker.
    Spawn,
    /// Main is handed the worker's number, and yields to it.
    YieldToWorker,
    /// Main joins the worker, which has this number.
    Join(i64),
    /// Main is handed the worker's value, and exits with it.
    Finish,
    /// The worker has this argument, and naps.
    Work(i64),
    /// The worker reads of a descriptor.
    Fetch(i64),
    /// The worker exits with this value.
    Bring(i64),
}

impl Program for Errand {
    type State = Place;

    type Shared = ();

    ghost functions = { errand_functions };

    fn shared(&self, _alloc: Global) -> Result<(), OutOfMemory> {
        Ok(())
    }

    fn bodies(&self) -> u32 {
        2
    }

    fn start(&self, _alloc: Global, body: BodyId, arg: i64) -> Result<Place, OutOfMemory> {
        Ok(match body.0 {
            0 => Place::Spawn,
            _ => Place::Work(arg),
        })
    }

    fn step(
        &self,
        _alloc: Global,
        place: &mut Place,
        _shared: &mut (),
        answer: &Answer,
    ) -> Result<Call, OutOfMemory> {
        let n = int_of(answer);
        let (call, next) = match *place {
            Place::Spawn => (Call::Spawn { b: 1, v: 9, a: 0 }, Place::YieldToWorker),
            Place::YieldToWorker => (Call::Yield(n), Place::Join(n)),
            Place::Join(worker) => (Call::Join(worker), Place::Finish),
            Place::Finish => (Call::Exit(n), Place::Finish),
            Place::Work(arg) => (Call::Nap(5), Place::Fetch(arg)),
            Place::Fetch(arg) => (Call::Read { f: 3, n: 10 }, Place::Bring(arg)),
            Place::Bring(value) => (Call::Exit(value), Place::Bring(value)),
        };
        *place = next;
        Ok(call)
    }

    fn check(&self, _check: CheckId, _arg: i64, _shared: &()) -> bool {
        false
    }

    fn act(&self, _handler: HandlerId, _arg: i64, _index: u32, _shared: &mut ()) -> Option<Act> {
        None
    }
}

/// The number that a call was answered, and 0 for any other answer.
pub fn int_of(answer: &Answer) -> i64
    ensures { result ≡ int_of answer.now }
{
    match answer {
        Answer::Int(n) => *n,
        _ => 0,
    }
}

/// Whatever comes to the descriptors, and wherever a run of this program stands: a thread that ended has no mark more, and nothing of
/// a wait is left of it. So are the runs of every program, and one call of `laws` says it of this one.
pub fn errands_are_lawful()
    ensures orderly { (g : Given Errand) (i : ℕ) → Orderly (run errand_functions g i).marks }
    ensures clean { (g : Given Errand) (i : ℕ) → (run errand_functions g i).turn.outcome ≢ Killed
        → IsClean (run errand_functions g i).state }
{
    laws::<Errand>();
}
