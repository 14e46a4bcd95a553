//! What is seen of standings.

ghost use Rattle.std.specs.Prelude.{ℕ, ◌+◌};
ghost use Rattle.pth_queue.specs.declared.queue.Queue.{Queue};
ghost use Rattle.pth_model.specs.Order.{IsInOrder, IsOnce, AreEntriesNumbered, ShareNoEntry, IsTopAhead, AreTopsFavoured};
ghost use Rattle.pth_model.specs.Run.{run};
ghost use Rattle.pth_model.specs.Shown.{EntriesShow, LeavesShow, RaisesShow};
ghost use Rattle.pth_model.specs.State.{Given};

use pth_base::program::Program;

/// The standings of a state show as lists of rows: an entry as an insertion behind equal and greater ranks, leaving as a
/// deletion, and a raise of the ready queue as one more on every rank of it.
pub fn standings_show_as_lists<P: Program>()
    ensures enter { EntriesShow P P.State P.Shared }
    ensures leave { LeavesShow P P.State P.Shared }
    ensures raise { RaisesShow P P.State P.Shared }
{}

/// Each queue of each state of a run shows all who stand there: the greater rank first, and at equal ranks the earlier
/// entry. No thread stands in two places. Entries are numbered as they come, over all queues. Exactly new threads that are
/// favoured enter at Top, and one that does is in front of all that were there.
pub fn queues_are_in_order<P: Program>()
    ensures order { (g : Given P) (i : ℕ) (q : Queue) → IsInOrder (run P.functions g i).state.control q }
    ensures once { (g : Given P) (i : ℕ) → IsOnce (run P.functions g i).state.control }
    ensures entries { (g : Given P) (i : ℕ) (q : Queue) → AreEntriesNumbered (run P.functions g i).state.control q }
    ensures apart { (g : Given P) (i : ℕ) (p q : Queue) → ShareNoEntry (run P.functions g i).state.control p q }
    ensures top { (g : Given P) (i : ℕ) (q : Queue) → IsTopAhead (run P.functions g i).state.control q }
    ensures favoured { (g : Given P) (i : ℕ) (q : Queue) → AreTopsFavoured (run P.functions g i) (run P.functions g (i + 1)).state.control q }
{}
