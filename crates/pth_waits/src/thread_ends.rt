//! The calls of thread control that end threads: `pth_exit`.

ghost use Rattle.std.specs.Prelude.{◌≡◌, true};
ghost use Rattle.pth_base.specs.declared.call.Call.TheVariants.{Exit};
ghost use Rattle.pth_model.specs.State.{Control, main};
ghost use Rattle.pth_model.specs.ThreadEnds.{exit as exit_row, must_wait as must_wait_now};
ghost use Rattle.pth_waits.specs.Verdicts.{TriesAgain};
ghost use Rattle.pth_world.specs.Shows.{Shows};
ghost use Rattle.pth_world.specs.Sound.{IsSound};

use pth_base::ids::{MAIN, Tid};
use pth_base::program::Program;
use pth_model::awaits::Awaits;
use pth_model::verdict::Verdict;
use pth_world::world::World;

// Whether the exit of a thread waits: that of the main thread does, as long as it is not alone.
fn must_wait<P: Program>(w: &World<P>, t: Tid) -> bool
    requires { IsSound w.now.threads }
    ensures waits { (k : Control P P.State P.Shared) → Shows w.now k → result ≡ must_wait_now k t.0 }
    ensures main { result ≡ true → t.0 ≡ main }
{
    t.0 == MAIN && !w.is_alone(t)
}

/// `pth_exit`, as it begins and as it is tried again: the main thread waits until it is alone, and every other thread ends.
pub(crate) fn exit<P: Program>(w: &World<P>, t: Tid, value: i64) -> Verdict
    requires { IsSound w.now.threads }
    ensures tries { TriesAgain w.now w.now t.0 (Exit value) (λ s. exit_row s t.0 value) result }
{
    if must_wait(w, t) {
        Verdict::Blocks(Awaits::Alone)
    } else {
        Verdict::Ends(value)
    }
}
