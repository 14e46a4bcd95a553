//! How the wait of a thread is undone as the thread ends.

ghost use Rattle.std.specs.Prelude.{◌≡◌, false, OnOk};
ghost use Rattle.pth_model.specs.Barriers.{withdraws, withdraws_from};
ghost use Rattle.pth_model.specs.Conditions.{hands_on_seat, hands_on_seats};
ghost use Rattle.pth_model.specs.Ending.{undoes_wait};
ghost use Rattle.pth_model.specs.State.{Control, State};
ghost use Rattle.pth_world.specs.Frame.{Frame};
ghost use Rattle.pth_world.specs.Leading.{LedTo};
ghost use Rattle.pth_world.specs.Numbering.{no_numbers};
ghost use Rattle.pth_world.specs.Shows.{Shows, StandsFor};
ghost use Rattle.pth_world.specs.Sound.{IsAlive};
ghost use Rattle.pth_world.specs.WellFormed.{WellFormed};

use pth_base::ids::Tid;
use pth_base::mark::Mark;
use pth_base::marks::Marks;
use pth_base::memory::OutOfMemory;
use pth_base::program::Program;
use pth_cond::seats::Seat;
use pth_model::awaits::{Awaited, Awaits};
use pth_world::world::World;

// Takes the arrival of a thread at a barrier back, if it waits there, and tells that.
fn withdraw<P: Program>(
    w: &mut World<P>,
    t: Tid,
    b: i64,
    marks: &mut Marks,
) -> Result<(), OutOfMemory>
    ensures goes { LedTo (StandsFor w.old) (withdraws t.0 b) w.new marks.old marks.new result }
    ensures same { w.new ≡ record w.old { barriers = w.new.barriers } }
{
    match w.barriers_mut().withdraw(b, t) {
        None => Ok(()),
        Some(barrier) => marks.push(Mark::Withdrew { tid: t, barrier }),
    }
}

// Takes the arrival back that a thread awaits the round of, if it awaits one.
fn withdraw_awaited<P: Program>(
    w: &mut World<P>,
    t: Tid,
    awaits: Awaits,
    marks: &mut Marks,
) -> Result<(), OutOfMemory>
    ensures goes { LedTo (StandsFor w.old) (withdraws_from t.0 awaits) w.new marks.old marks.new result }
    ensures same { w.new ≡ record w.old { barriers = w.new.barriers } }
{
    match awaits {
        Awaits::Round { b, .. } => withdraw(w, t, b, marks),
        _ => Ok(()),
    }
}

// A thread leaves its seat at the condition that it awaits, if it awaits one. If the seat alone was notified, the first that was not
// is, in its place.
fn hand_on_seat<P: Program>(w: &mut World<P>, t: Tid, awaits: Awaits)
    ensures shows { (k : Control P P.State P.Shared) → Shows w.old k → Shows w.new (hands_on_seat t.0 awaits k) }
    ensures same { w.new ≡ record w.old { conditions = w.new.conditions } }
{
    if let Awaits::Notice(c) = awaits {
        w.conditions_mut().hand_on(c, Seat::Await(t));
    }
}

/// A thread that is canceled or ends hands its seats on: first its own at the condition that it awaits, if it awaits one, and then those
/// that the events of its ring have (`PTH_EVENT_COND`). The mark of a seat that alone was notified goes to the first without a mark.
pub fn hand_on_seats<P: Program>(w: &mut World<P>, t: Tid, awaited: Awaited)
    ensures shows { (k : Control P P.State P.Shared) → Shows w.old k → Shows w.new (hands_on_seats t.0 awaited k) }
    ensures same { w.new ≡ record w.old { conditions = w.new.conditions } }
{
    hand_on_seat(w, t, awaited.what);
    w.hand_on_ring(awaited.ring);
}

/// The wait of a thread that ends is undone: its arrival at a barrier is taken back, which is told, its seats at conditions are handed
/// on, the call that blocks it is taken out, and the claim on its ring is given back. After an error the world may only be dropped.
pub(crate) fn undo_wait<P: Program>(
    w: &mut World<P>,
    t: Tid,
    marks: &mut Marks,
) -> Result<(), OutOfMemory>
    requires whole { WellFormed w.old }
    requires alive { IsAlive w.old.threads t.0 }
    ensures goes { LedTo (StandsFor w.old) (undoes_wait t.0) w.new marks.old marks.new result }
    ensures frame { OnOk result (Frame w.old w.new no_numbers w.old.scheduler.running false) }
    ensures records { OnOk result (w.new.threads.records ≡ w.old.threads.records) }
{
    let awaited = w.awaited(t);
    withdraw_awaited(w, t, awaited.what, marks)?;
    hand_on_seats(w, t, awaited);
    w.unblock(t);
    Ok(())
}
