//! The threads that are not dead.

ghost use Rattle.std.specs.Prelude.{◌≡◌, ◌∷◌, [], map, IfOk, if◌then◌else◌};
ghost use Rattle.pth_threads.specs.Threads.{number_of};
ghost use Rattle.pth_model.specs.Living.{if_live, live as live_threads};
ghost use Rattle.pth_model.specs.State.{State};
ghost use Rattle.pth_world.specs.Shows.{StandsFor};
ghost use Rattle.pth_world.specs.Sound.{IsSound};

use pth_base::ids::Tid;
use pth_base::memory::OutOfMemory;
use pth_base::program::Program;
use pth_base::thread::ThreadState;
use pth_world::world::World;
use std::alloc::Global;

/// The numbers of the threads in the system that are not dead, the oldest first.
pub fn live<P: Program>(w: &World<P>, alloc: Global) -> Result<Vec<Tid>, OutOfMemory>
    requires { IsSound w.now.threads }
    ensures { IfOk result (λ v. (s : State P P.State P.Shared) → StandsFor w.now s → map number_of v.items ≡ live_threads s) }
{
    let tids = w.threads().tids(alloc)?;
    let mut live = Vec::new(alloc);
    for t in &tids {
        if is_live(w, *t) {
            live.push(*t)?;
        }
    }
    Ok(live)
}

// Whether a thread is in the system and not dead.
fn is_live<P: Program>(w: &World<P>, t: Tid) -> bool
    requires { IsSound w.now.threads }
    ensures { (s : State P P.State P.Shared) → StandsFor w.now s → if_live t.0 (s.control.threads.known t.0) ≡ (if result then t.0 ∷ [] else []) }
{
    match w.entry(t) {
        Some(entry) => !matches!(entry.state, ThreadState::Dead),
        None => false,
    }
}
