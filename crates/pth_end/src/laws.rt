//! Laws of whole worlds.

ghost use Rattle.pth_model.specs.State.{State};
ghost use Rattle.pth_laws.specs.Consistent.{AreWaitsConsistent};
ghost use Rattle.pth_laws.specs.Waits.{AllAskNoMore};
ghost use Rattle.pth_world.specs.Shows.{StandsFor};
ghost use Rattle.pth_world.specs.World.{WorldOf};
ghost use Rattle.pth_end.specs.Whole.{Whole};

use pth_base::program::Program;

/// In each state for which a whole world stands the waits of threads are consistent: what a blocked call made is there, and what is there
/// a blocked call made. So a call that is tried again asks no more than that a mutex is free, that a lock lets its thread in, or that no
/// other thread has the mutex that is to be taken back.
pub fn whole_worlds_wait_consistently<P: Program>()
    ensures waits { (w : WorldOf P P.State P.Shared) (s : State P P.State P.Shared) → Whole w → StandsFor w s → AreWaitsConsistent s }
    ensures rows { (w : WorldOf P P.State P.Shared) (s : State P P.State P.Shared) → Whole w → StandsFor w s → AllAskNoMore P.functions s }
{}
