//! The events of a world, and the claims on their rings.

ghost use Rattle.std.specs.Prelude.{◌≡◌, Some, Err, OnOk, false};
ghost use Rattle.std.specs.Borrow.{Lends, sem};
ghost use Rattle.pth_base.specs.declared.errno.Errno.{Errno};
ghost use Rattle.pth_base.specs.declared.refusal.Refusal.TheVariants.{Fail};
ghost use Rattle.pth_cond.specs.Conditions.{seat_entered, seat_handed_on};
ghost use Rattle.pth_store.specs.Storing.{AnswersWithMemory};
ghost use Rattle.pth_model.specs.RingWaits.{claims, gives_back, ring_seats};
ghost use Rattle.pth_model.specs.State.{Control};
ghost use Rattle.pth_numbered.specs.Operands.{number};
ghost use Rattle.pth_ring.specs.Arena.{events_of};
ghost use Rattle.pth_ring.specs.Rings.{claim_answer};
ghost use Rattle.pth_ring.specs.contracts.rings.Rings.{the_row as rings_row};
ghost use Rattle.pth_world.specs.Frame.{Frame};
ghost use Rattle.pth_world.specs.Numbering.{no_numbers};
ghost use Rattle.pth_world.specs.Shows.{Shows};
ghost use Rattle.pth_world.specs.WellFormed.{WellFormed};
ghost use Rattle.pth_world.specs.contracts.world.World.{the_row};

use crate::world::World;
use crate::world::event_seats::{enter_seats, leave_seats};
use pth_base::errno::Errno;
use pth_base::ids::Tid;
use pth_base::memory::OutOfMemory;
use pth_base::program::Program;
use pth_base::refusal::Refusal;
use pth_ring::rings::Rings;

impl<P: Program> World<P> {
    /// The events and their rings (`pth_event_t`).
    pub fn rings(&self) -> &Rings
        ensures { result.now ≡ self.now.events }
    {
        &self.events
    }

    /// The events and their rings, for changes that touch no thread.
    pub fn rings_mut(&mut self) -> &mut Rings
        ensures* writes_back { sem 𝓛 (Lends (the_row P.row P.State.row P.Shared.row P.Program) rings_row self.entry result (λ x. record self.old { events = x })) }
        ensures value { result.now ≡ self.old.events }
    {
        &mut self.events
    }

    // The events of a ring enter their seats at conditions (`PTH_EVENT_COND`). If no condition is initialised, the ring is not walked.
    fn enter_ring(&mut self, e: i64) -> Result<(), OutOfMemory>
        ensures shows { OnOk result ((k : Control P P.State P.Shared) → Shows self.old k → Shows self.new (ring_seats seat_entered (Some e) k)) }
        ensures same { self.new ≡ record self.old { conditions = self.new.conditions } }
    {
        if !self.conditions.is_any_live() {
            return Ok(());
        }
        enter_seats(&self.events, &mut self.conditions, e)
    }

    /// A thread waits for the ring of an event from now on (`pth_wait`), and the events of conditions in it enter their seats there:
    /// EINVAL where there is no such event, and EBUSY where its ring is claimed. Without memory the world may only be dropped.
    pub fn claim(&mut self, t: Tid, e: i64) -> Result<(), Refusal>
        requires { WellFormed self.old }
        ensures answer { AnswersWithMemory (claim_answer (events_of self.old.events) (number e)) result }
        ensures shows { OnOk result ((k : Control P P.State P.Shared) → Shows self.old k → Shows self.new (claims t.0 (Some e) k)) }
        ensures frame { Frame self.old self.new no_numbers self.old.scheduler.running false }
        ensures refused { (errno : Errno) → result ≡ Err (Fail errno) → self.new ≡ self.old }
        ensures same { self.new ≡ record self.old { events = self.new.events; conditions = self.new.conditions } }
    {
        let now = self.time();
        if let Err(errno) = self.rings_mut().claim(e, t, now) {
            return Err(Refusal::Fail(errno));
        }
        match self.enter_ring(e) {
            Ok(()) => Ok(()),
            Err(_) => Err(Refusal::OutOfMemory),
        }
    }

    // The claim that stands at an event is given back, and the events of its ring leave their seats.
    pub(crate) fn give_back(&mut self, ring: Option<i64>)
        ensures shows { (k : Control P P.State P.Shared) → Shows self.old k → Shows self.new (gives_back ring k) }
        ensures made { self.new.events.made ≡ self.old.events.made }
        ensures same { self.new ≡ record self.old { events = self.new.events; conditions = self.new.conditions } }
    {
        if let Some(e) = ring {
            leave_seats(&self.events, &mut self.conditions, e, false);
            self.rings_mut().unclaim_at(e);
        }
    }

    /// The events of a ring hand their seats at conditions on, since the thread that waits for it is canceled or ends.
    pub fn hand_on_ring(&mut self, ring: Option<i64>)
        ensures shows { (k : Control P P.State P.Shared) → Shows self.old k → Shows self.new (ring_seats seat_handed_on ring k) }
        ensures same { self.new ≡ record self.old { conditions = self.new.conditions } }
    {
        if let Some(e) = ring {
            leave_seats(&self.events, &mut self.conditions, e, true);
        }
    }
}
