//! Thread Cleanups of pth(3): `pth_cleanup_push`, `pth_cleanup_pop`.
//!
//! In which order the routines of a terminating thread are called, and the destructors of its keys, is in `Ending.antt` of `pth_model`.

ghost use Rattle.std.specs.Prelude.{ℕ, ℤ, ◌≡◌, None, Some};
ghost use Rattle.pth_base.specs.declared.call.Call.TheVariants as call;
ghost use Rattle.pth_base.specs.declared.errno.Errno.TheVariants.{EAGAIN, EINVAL};
ghost use Rattle.pth_numbered.specs.Operands.{is_zero};
ghost use Rattle.pth_store.specs.Cleanups.{is_full_stack, with_top, pop_answer, PushedHandler, top_taken};
ghost use Rattle.pth_model.specs.Acts.{runs_handler};
ghost use Rattle.pth_model.specs.Resources.{handler};
ghost use Rattle.pth_model.specs.State.{State};
ghost use Rattle.pth_sheet.specs.Outcomes.{Begins, refused, ◌then◌, returns, ◌before◌};
ghost use Rattle.pth_numbered.specs.Clauses.{◌when◌otherwise◌};
ghost use Rattle.pth_sheet.specs.States.{cleanups_of, cleanups_become};

use pth_base::program::Program;

/// This pushes the routine `h` with the argument `v` onto the stack of cleanup routines for the current thread. These routines are called
/// in LIFO order when the thread terminates. Here a routine is a handler of the program, and a stack has at most 256 of them (else EAGAIN).
pub fn pth_cleanup_push<P: Program>()
    ensures { (s : State P P.State P.Shared) (t : ℕ) (h v : ℤ) →
        Begins P.functions s t (call.CleanupPush h v) (
        refused EAGAIN when is_full_stack (cleanups_of s t) otherwise
        cleanups_become (with_top t (handler h, v)) then returns 1) }
{}

/// This pops the top-most routine from the stack of cleanup routines for the current thread. When `v` is TRUE (not 0), the routine is
/// additionally called. Here an empty stack is refused (EINVAL), and `x` is the top: the routine `x.0` with the argument `x.1`. It is
/// called before it is popped, which makes no difference: no routine can push or pop.
pub fn pth_cleanup_pop<P: Program>()
    ensures no_routine { (s : State P P.State P.Shared) (t : ℕ) (v : ℤ) →
        pop_answer (cleanups_of s) t ≡ None →
        Begins P.functions s t (call.CleanupPop v) (refused EINVAL) }
    ensures popped { (s : State P P.State P.Shared) (t : ℕ) (v : ℤ) (x : PushedHandler) →
        pop_answer (cleanups_of s) t ≡ Some x →
        Begins P.functions s t (call.CleanupPop v) (
        cleanups_become (top_taken t) then returns 1 when is_zero v otherwise
        runs_handler P.functions t x.0 x.1 before cleanups_become (top_taken t) then returns 1) }
{}
