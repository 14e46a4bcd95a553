//! What is seen of looks, and the states of threads for which events wait.

ghost use Rattle.std.specs.Prelude.{◌≡◌, ℕ, ◌++◌, List};
ghost use Rattle.pth_model.specs.Looks.{after_looks, is_state as is_one_state};
ghost use Rattle.pth_model.specs.State.{State};

use pth_base::program::Program;
use pth_base::thread::ThreadState;

/// Whether two states are one.
pub fn is_state(a: ThreadState, b: ThreadState) -> bool
    ensures { result ≡ is_one_state a b }
{
    a == b
}

/// At one moment a second look at events changes nothing, and a look at some and then at others is one look at all. So it is the same
/// whether events are looked at ring by ring, be it twice, or all together.
pub fn looks_are_one<P: Program>()
    ensures again { (s : State P P.State P.Shared) (es : List ℕ) → after_looks P.functions (after_looks P.functions s es) es ≡ after_looks P.functions s es }
    ensures joined { (s : State P P.State P.Shared) (xs ys : List ℕ) → after_looks P.functions (after_looks P.functions s xs) ys ≡ after_looks P.functions s (xs ++ ys) }
{}
