//! How a thread ends.

ghost use Rattle.std.specs.Prelude.{false, OnOk};
ghost use Rattle.pth_model.specs.Ending.{ending, other_than};
ghost use Rattle.pth_world.specs.Frame.{Frame};
ghost use Rattle.pth_world.specs.Leading.{LedTo};
ghost use Rattle.pth_world.specs.Numbering.{no_numbers};
ghost use Rattle.pth_world.specs.Shows.{StandsFor};
ghost use Rattle.pth_world.specs.Sound.{IsAlive};
ghost use Rattle.pth_world.specs.WellFormed.{WellFormed};
ghost use Rattle.pth_end.specs.Whole.{Whole};

use crate::cleanups::run_cleanups;
use crate::destructors::run_destructors;
use crate::giving::give_all;
use crate::undoing::undo_wait;
use pth_base::ids::Tid;
use pth_base::mark::Mark;
use pth_base::marks::Marks;
use pth_base::memory::OutOfMemory;
use pth_base::program::Program;
use pth_world::world::World;

/// Ends a thread that is alive with a value, whoever runs: its wait is undone, its arrival at a barrier is taken back, and its seats
/// at conditions are handed on; its cleanup handlers run, the last pushed first, and then its destructors, and it gives up its
/// mutexes and read-write locks; one that can be joined is dead until it is joined, and another is gone (`pth_exit`). After an error
/// the world may only be dropped.
pub fn end_thread<P: Program>(
    w: &mut World<P>,
    t: Tid,
    value: i64,
    marks: &mut Marks,
) -> Result<(), OutOfMemory>
    requires whole { WellFormed w.old }
    requires alive { IsAlive w.old.threads t.0 }
    ensures goes { LedTo (StandsFor w.old) (ending P.functions t.0 value) w.new marks.old marks.new result }
    ensures frame { OnOk result (Frame w.old w.new no_numbers (other_than t.0 w.old.scheduler.running) false) }
    ensures keeps { OnOk result (Whole w.old → Whole w.new) }
{
    undo_wait(w, t, marks)?;
    run_cleanups(w, t, marks)?;
    run_destructors(w, t, marks)?;
    give_all(w, t, marks)?;
    w.forget(t);
    w.leave(t, value);
    marks.push(Mark::Ended { tid: t, value })
}
