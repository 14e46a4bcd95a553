//! What a program that is written against POSIX is.

ghost use Rattle.std.specs.Prelude.{◌≡◌, ◌<◌, ◌≤◌, IfOk, IsNone};
ghost use Rattle.pth_posix.specs.PosixProgram.{PosixFunctions};

use crate::panswer::PAnswer;
use crate::pcall::PCall;
use pth_base::act::Act;
use pth_base::ids::{BodyId, CheckId, HandlerId};
use pth_base::memory::OutOfMemory;
use std::alloc::Global;

/// Thread bodies that go on by steps, each of which takes the answer of a POSIX call and gives the next one. Its other functions are
/// those of a `Program`.
///
/// Each function equals one of `posix_functions`; only want of memory refuses.
pub trait PosixProgram: Drop {
    /// Where a thread stands in its body.
    type State: Drop;

    /// What all threads of a run share.
    type Shared: Drop;

    /// The functions that the program stands for.
    ghost posix_functions: { Self → PosixFunctions Self.State Self.Shared };

    /// The first shared value.
    fn shared(&self, alloc: Global) -> Result<Self::Shared, OutOfMemory>
        ensures { IfOk result (λ shared. shared ≡ (posix_functions self.now).shared) };

    /// How many bodies there are. Body 0 is main's.
    fn bodies(&self) -> u32
        ensures count { result ≡ (posix_functions self.now).bodies }
        ensures some { 1 ≤ result };

    /// The first state of a thread with this body and argument (the start routine of `pthread_create`).
    fn start(&self, alloc: Global, body: BodyId, arg: i64) -> Result<Self::State, OutOfMemory>
        requires { body.0 < (posix_functions self.now).bodies }
        ensures { IfOk result (λ state. state ≡ (posix_functions self.now).start body.0 arg) };

    /// Takes the answer of the thread's last call, and gives its next call. The first answer of a thread is none. After an error
    /// the state may be used no further.
    fn step(
        &self,
        alloc: Global,
        state: &mut Self::State,
        shared: &mut Self::Shared,
        answer: &PAnswer,
    ) -> Result<PCall, OutOfMemory>
        ensures { IfOk result (λ call. record { call = call; state = state.new; shared = shared.new }
            ≡ (posix_functions self.now).step state.old shared.old answer.now) };

    /// Whether a check holds. No POSIX call asks for one; `World::check` does.
    fn check(&self, check: CheckId, arg: i64, shared: &Self::Shared) -> bool
        ensures { result ≡ (posix_functions self.now).check check.0 arg shared.now };

    /// The act of a handler at an index from 0 on, and none after its last.
    fn act(
        &self,
        handler: HandlerId,
        arg: i64,
        index: u32,
        shared: &mut Self::Shared,
    ) -> Option<Act>
        ensures act { record { act = result; shared = shared.new } ≡ (posix_functions self.now).act handler.0 arg index shared.old }
        ensures ends { 64 ≤ index → IsNone result };
}
