//! Ends that a thread was asked for, or is made to take: `pth_cancel`, `pth_abort`, `pth_cancel_point`.

ghost use Rattle.std.specs.Prelude.{◌≡◌, false, Some, OnOk};
ghost use Rattle.pth_model.specs.Cancellation.{aborted, canceled_by_other, canceled_in, takes_request};
ghost use Rattle.pth_model.specs.Ending.{other_than};
ghost use Rattle.pth_world.specs.Frame.{Frame};
ghost use Rattle.pth_world.specs.Leading.{LedTo};
ghost use Rattle.pth_world.specs.Numbering.{no_numbers};
ghost use Rattle.pth_world.specs.Shows.{StandsFor};
ghost use Rattle.pth_world.specs.Sound.{IsAlive};
ghost use Rattle.pth_world.specs.WellFormed.{WellFormed};

use crate::ending::end_thread;
use pth_base::call::Call;
use pth_base::ids::Tid;
use pth_base::mark::Mark;
use pth_base::marks::Marks;
use pth_base::memory::OutOfMemory;
use pth_base::program::Program;
use pth_threads::entry::Change;
use pth_world::world::World;

/// What a thread that is canceled ends with (`PTH_CANCELED`).
pub const CANCELED: i64 = -1;

/// Cancels a thread that is alive in another thread's turn: that is told without a call, and then the thread ends. After an error
/// the world may only be dropped.
pub fn cancel_from_outside<P: Program>(
    w: &mut World<P>,
    t: Tid,
    marks: &mut Marks,
) -> Result<(), OutOfMemory>
    requires whole { WellFormed w.old }
    requires alive { IsAlive w.old.threads t.0 }
    ensures goes { LedTo (StandsFor w.old) (canceled_by_other P.functions t.0) w.new marks.old marks.new result }
    ensures frame { OnOk result (Frame w.old w.new no_numbers (other_than t.0 w.old.scheduler.running) false) }
{
    marks.push(Mark::Canceled { tid: t, call: None })?;
    end_thread(w, t, CANCELED, marks)
}

/// The thread that runs takes up the request to end, in a call of its own, and that is told with the call.
pub fn take_request<P: Program>(
    w: &mut World<P>,
    t: Tid,
    call: Call,
    marks: &mut Marks,
) -> Result<(), OutOfMemory>
    requires whole { WellFormed w.old }
    requires runs { w.old.scheduler.running ≡ Some t.0 }
    ensures goes { LedTo (StandsFor w.old) (takes_request t.0 call) w.new marks.old marks.new result }
    ensures alive { IsAlive w.new.threads t.0 }
    ensures frame { Frame w.old w.new no_numbers w.old.scheduler.running false }
{
    w.set_field(t, Change::Request(false));
    marks.push(Mark::Canceled {
        tid: t,
        call: Some(call),
    })
}

/// Cancels the thread that runs in a call of its own: its request is taken up, that is told with the call, and then it ends. After
/// an error the world may only be dropped.
pub fn cancel_within<P: Program>(
    w: &mut World<P>,
    t: Tid,
    call: Call,
    marks: &mut Marks,
) -> Result<(), OutOfMemory>
    requires whole { WellFormed w.old }
    requires runs { w.old.scheduler.running ≡ Some t.0 }
    ensures goes { LedTo (StandsFor w.old) (canceled_in P.functions t.0 call) w.new marks.old marks.new result }
    ensures frame { OnOk result (Frame w.old w.new no_numbers (other_than t.0 w.old.scheduler.running) false) }
{
    take_request(w, t, call, marks)?;
    end_thread(w, t, CANCELED, marks)
}

/// Makes a thread that is alive end now, whatever its cancel state is: it can be joined no longer, and so it is gone. After an error
/// the world may only be dropped.
pub fn abort_thread<P: Program>(
    w: &mut World<P>,
    t: Tid,
    marks: &mut Marks,
) -> Result<(), OutOfMemory>
    requires whole { WellFormed w.old }
    requires alive { IsAlive w.old.threads t.0 }
    ensures goes { LedTo (StandsFor w.old) (aborted P.functions t.0) w.new marks.old marks.new result }
    ensures frame { OnOk result (Frame w.old w.new no_numbers (other_than t.0 w.old.scheduler.running) false) }
{
    w.set_field(t, Change::Joinable(false));
    w.set_field(t, Change::Cancel(3));
    cancel_from_outside(w, t, marks)
}
