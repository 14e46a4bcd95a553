//! Handlers: what they do, and whether they were run once.

ghost use Rattle.std.specs.Prelude.{◌≡◌, ◌≢◌, ◌≤◌, true, Ok, IsNone};
ghost use Rattle.pth_model.specs.Changes.{shares, uses};
ghost use Rattle.pth_model.specs.Looks.{check_holds};
ghost use Rattle.pth_model.specs.State.{Control, State};
ghost use Rattle.pth_numbered.specs.Operands.{number};
ghost use Rattle.pth_world.specs.Once.{once_answer};
ghost use Rattle.pth_world.specs.Shows.{Shows};
ghost use Rattle.pth_world.specs.WellFormed.{WellFormed};

use crate::world::World;
use pth_base::act::Act;
use pth_base::errno::Errno;
use pth_base::ids::{CheckId, HandlerId};
use pth_base::program::Program;

// How many once controls there are.
const ONCE_CONTROLS: i64 = 64;

impl<P: Program> World<P> {
    /// The act of a handler at an index, and none after its last. A set shared value is made here.
    pub fn act(&mut self, h: HandlerId, arg: i64, index: u32) -> Option<Act>
        ensures act { record { act = result; shared = self.new.shared } ≡ (P.functions self.old.program).act h.0 arg index self.old.shared }
        ensures ends { 64 ≤ index → IsNone result }
        ensures shows { (k : Control P P.State P.Shared) → Shows self.old k → Shows self.new (shares ((P.functions k.program).act h.0 arg index k.shared).shared k) }
        ensures whole { WellFormed self.old → WellFormed self.new }
        ensures same { self.new ≡ record self.old { shared = self.new.shared } }
    {
        self.program.act(h, arg, index, &mut self.shared)
    }

    /// Whether a check holds over the shared value (the function of a `PTH_EVENT_FUNC`). A number that no check can have stands for the
    /// last one, 4,294,967,295, as it does for handlers.
    pub fn check(&self, c: i64, arg: i64) -> bool
        ensures { (s : State P P.State P.Shared) → Shows self.now s.control → result ≡ check_holds P.functions s c arg }
    {
        let check = CheckId(u32::try_from(c).unwrap_or(u32::MAX));
        self.program.check(check, arg, &self.shared)
    }

    /// Whether it is the first time for a once control, which is used from now on (`pth_once`): EINVAL where it is not one from 0
    /// to 63.
    pub fn once(&mut self, o: i64) -> Result<bool, Errno>
        ensures answer { (k : Control P P.State P.Shared) → Shows self.old k → result ≡ once_answer k.used o }
        ensures first { result ≡ Ok true → (k : Control P P.State P.Shared) → Shows self.old k → Shows self.new (uses (number o) k) }
        ensures still { result ≢ Ok true → self.new ≡ self.old }
        ensures whole { WellFormed self.old → WellFormed self.new }
        ensures same { self.new ≡ record self.old { used = self.new.used } }
    {
        if o < 0 || o >= ONCE_CONTROLS {
            return Err(Errno::EINVAL);
        }
        let place = o as usize;
        if self.used[place] {
            return Ok(false);
        }
        self.used[place] = true;
        Ok(true)
    }
}
