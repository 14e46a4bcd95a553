//! The cleanup handlers of a thread that ends.

ghost use Rattle.std.specs.Prelude.{drop, ◌≤◌, OnOk};
ghost use Rattle.pth_end.specs.Handling.{IsHandled};
ghost use Rattle.pth_model.specs.Ending.{runs_each, runs_cleanups};
ghost use Rattle.pth_world.specs.Leading.{LedTo};
ghost use Rattle.pth_world.specs.Shows.{StandsFor};
ghost use Rattle.pth_world.specs.Sound.{IsAlive};
ghost use Rattle.pth_world.specs.Store.{store_of};
ghost use Rattle.pth_world.specs.WellFormed.{WellFormed};

use crate::handlers::run_told_handler;
use pth_base::ids::Tid;
use pth_base::marks::Marks;
use pth_base::memory::OutOfMemory;
use pth_base::program::Program;
use pth_world::world::World;

// Runs the handlers of a thread from the one that stands n below the top on.
fn run_below<P: Program>(
    w: &mut World<P>,
    t: Tid,
    n: u32,
    marks: &mut Marks,
) -> Result<(), OutOfMemory>
    requires whole { WellFormed w.old }
    requires alive { IsAlive w.old.threads t.0 }
    requires low { n ≤ 256 }
    ensures goes { LedTo (StandsFor w.old) (runs_each P.functions t.0 (drop n ((store_of w.old.store).cleanups t.0))) w.new marks.old marks.new result }
    ensures handled { OnOk result (IsHandled w.old w.new) }
{
    let Some((h, arg)) = w.cleanup_below(t, n) else {
        return Ok(());
    };
    run_told_handler(w, t, h, arg, marks)?;
    run_below(w, t, n + 1, marks)
}

/// Runs the cleanup handlers of a thread that ends, the last pushed first. They stay on its stack, where no handler can see them.
/// After an error the world may only be dropped.
pub fn run_cleanups<P: Program>(
    w: &mut World<P>,
    t: Tid,
    marks: &mut Marks,
) -> Result<(), OutOfMemory>
    requires whole { WellFormed w.old }
    requires alive { IsAlive w.old.threads t.0 }
    ensures goes { LedTo (StandsFor w.old) (runs_cleanups P.functions t.0) w.new marks.old marks.new result }
    ensures handled { OnOk result (IsHandled w.old w.new) }
{
    run_below(w, t, 0, marks)
}
