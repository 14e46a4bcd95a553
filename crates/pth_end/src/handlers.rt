//! Handlers, which a thread runs by making their acts.

ghost use Rattle.std.specs.Prelude.{◌-◌, ◌≤◌, OnOk};
ghost use Rattle.pth_end.specs.Handling.{IsHandled};
ghost use Rattle.pth_end.specs.Whole.{Whole};
ghost use Rattle.pth_model.specs.Acts.{acts_from, handled as handled_by, runs_handler};
ghost use Rattle.pth_world.specs.Leading.{LedTo};
ghost use Rattle.pth_world.specs.Shows.{StandsFor};
ghost use Rattle.pth_world.specs.Sound.{IsAlive};
ghost use Rattle.pth_world.specs.WellFormed.{WellFormed};

use crate::acts::make_act;
use pth_base::ids::{HandlerId, Tid};
use pth_base::mark::Mark;
use pth_base::marks::Marks;
use pth_base::memory::OutOfMemory;
use pth_base::program::Program;
use pth_world::world::World;

// Makes the acts of a handler from an index on.
fn make_acts<P: Program>(
    w: &mut World<P>,
    t: Tid,
    h: HandlerId,
    arg: i64,
    index: u32,
    marks: &mut Marks,
) -> Result<(), OutOfMemory>
    requires whole { WellFormed w.old }
    requires alive { IsAlive w.old.threads t.0 }
    requires index { index ≤ 64 }
    ensures goes { LedTo (StandsFor w.old) (acts_from P.functions t.0 h arg (65 - index) index) w.new marks.old marks.new result }
    ensures handled { OnOk result (IsHandled w.old w.new) }
{
    let Some(act) = w.act(h, arg, index) else {
        return Ok(());
    };
    make_act(w, t, act, marks)?;
    make_acts(w, t, h, arg, index + 1, marks)
}

/// Runs a handler as a thread that is alive: all its acts, at most 64, each with its mark. That the handler runs is for the caller to
/// tell. After an error the world may only be dropped.
pub fn run_handler<P: Program>(
    w: &mut World<P>,
    t: Tid,
    h: HandlerId,
    arg: i64,
    marks: &mut Marks,
) -> Result<(), OutOfMemory>
    requires whole { WellFormed w.old }
    requires alive { IsAlive w.old.threads t.0 }
    ensures goes { LedTo (StandsFor w.old) (handled_by P.functions t.0 h arg) w.new marks.old marks.new result }
    ensures handled { OnOk result (IsHandled w.old w.new) }
    ensures keeps { OnOk result (Whole w.old → Whole w.new) }
{
    make_acts(w, t, h, arg, 0, marks)
}

/// Runs a handler that was pushed (`pth_cleanup_push`), or is run once (`pth_once`), and tells that it does. After an error the world
/// may only be dropped.
pub fn run_told_handler<P: Program>(
    w: &mut World<P>,
    t: Tid,
    h: HandlerId,
    arg: i64,
    marks: &mut Marks,
) -> Result<(), OutOfMemory>
    requires whole { WellFormed w.old }
    requires alive { IsAlive w.old.threads t.0 }
    ensures goes { LedTo (StandsFor w.old) (runs_handler P.functions t.0 h arg) w.new marks.old marks.new result }
    ensures handled { OnOk result (IsHandled w.old w.new) }
{
    marks.push(Mark::Handler {
        tid: t,
        handler: h,
        arg,
    })?;
    run_handler(w, t, h, arg, marks)
}
