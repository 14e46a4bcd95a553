//! Which threads live.

ghost use Rattle.std.specs.Prelude.{◌≡◌};
ghost use Rattle.pth_model.specs.Living.{is_dead as is_dead_state};

use pth_base::thread::ThreadState;

/// Whether a thread in this state has ended. It stays in the system until it is joined.
pub fn is_dead(state: ThreadState) -> bool
    ensures { result ≡ is_dead_state state }
{
    match state {
        ThreadState::Dead => true,
        _ => false,
    }
}
