//! Global Library Management of pth(3): `pth_kill`, `pth_ctrl`.

ghost use Rattle.std.specs.Prelude.{ℕ, not, ◌==◌, length, ℤ, pos, if◌then◌else◌};
ghost use Rattle.pth_base.specs.declared.answer.Answer.TheVariants.{Int, Text};
ghost use Rattle.pth_base.specs.declared.call.Call.TheVariants as call;
ghost use Rattle.pth_base.specs.declared.errno.Errno.TheVariants.{EPERM, EINVAL, ESRCH};
ghost use Rattle.pth_base.specs.declared.query.Query.TheVariants as query;
ghost use Rattle.pth_queue.specs.declared.queue.Queue.TheVariants as ranked;
ghost use Rattle.pth_numbered.specs.Operands.{◌is_from◌to◌, ◌is◌};
ghost use Rattle.pth_model.specs.Changes.{favours_new};
ghost use Rattle.pth_model.specs.LibraryControl.{running_count};
ghost use Rattle.pth_model.specs.State.{State, main, present, queue};
ghost use Rattle.pth_model.specs.ThreadControl.{is_known};
ghost use Rattle.pth_sheet.specs.Outcomes.{Begins, refused, ◌then◌, kills, returns, answers};
ghost use Rattle.pth_numbered.specs.Clauses.{◌when◌otherwise◌};
ghost use Rattle.pth_sheet.specs.States.{leaves_only, control_becomes, thread_of};

use pth_base::program::Program;

/// This kills the Pth library. It has to be called from within the main thread. It implicitly kills all threads. It returns immediately
/// with FALSE (here EPERM) if it is not called from within the main thread. Else it kills the threading system and returns TRUE. Here the
/// run then ends.
pub fn pth_kill<P: Program>()
    ensures { (s : State P P.State P.Shared) (t : ℕ) →
        Begins P.functions s t call.Kill (
        refused EPERM when not (t == main) otherwise
        leaves_only t then kills) }
{}

/// This is a generalized query/control function for the Pth library. `PTH_CTRL_GETTHREADS` returns the total number of threads currently in
/// existence, and `PTH_CTRL_GETTHREADS_NEW`, `_READY`, `_RUNNING`, `_WAITING`, `_SUSPENDED` and `_DEAD` return the number of threads in a
/// particular state. `PTH_CTRL_GETPRIO` returns the priority of the given thread `n`, and `PTH_CTRL_GETNAME` its name. `PTH_CTRL_FAVOURNEW`
/// specifies whether the scheduler favours new threads on startup, i.e., whether they are moved from the new queue to the top or middle of
/// the ready queue. Here it returns the old setting, and `PTH_CTRL_GETAVLOAD` and `PTH_CTRL_DUMPSTATE` are left out.
pub fn pth_ctrl<P: Program>()
    ensures threads { (s : State P P.State P.Shared) (t : ℕ) →
        Begins P.functions s t (call.Ctrl query.Threads) (returns (present s.control)) }
    ensures new { (s : State P P.State P.Shared) (t : ℕ) →
        Begins P.functions s t (call.Ctrl query.New) (
        returns (length (queue s.control ranked.New))) }
    ensures ready { (s : State P P.State P.Shared) (t : ℕ) →
        Begins P.functions s t (call.Ctrl query.Ready) (
        returns (length (queue s.control ranked.Ready))) }
    ensures running { (s : State P P.State P.Shared) (t : ℕ) →
        Begins P.functions s t (call.Ctrl query.Running) (
        returns (running_count s.control.scheduler.running)) }
    ensures waiting { (s : State P P.State P.Shared) (t : ℕ) →
        Begins P.functions s t (call.Ctrl query.Waiting) (
        returns (length (queue s.control ranked.Waiting))) }
    ensures suspended { (s : State P P.State P.Shared) (t : ℕ) →
        Begins P.functions s t (call.Ctrl query.Suspended) (
        returns (length (queue s.control ranked.Suspended))) }
    ensures dead { (s : State P P.State P.Shared) (t : ℕ) →
        Begins P.functions s t (call.Ctrl query.Dead) (
        returns (length (queue s.control ranked.Dead))) }
    ensures priority { (s : State P P.State P.Shared) (t : ℕ) (n : ℤ) →
        Begins P.functions s t (call.Ctrl (query.Prio n)) (
        refused ESRCH when not (is_known s.control n) otherwise
        answers (Int (thread_of s n).prio)) }
    ensures name { (s : State P P.State P.Shared) (t : ℕ) (n : ℤ) →
        Begins P.functions s t (call.Ctrl (query.Name n)) (
        refused ESRCH when not (is_known s.control n) otherwise
        answers (Text (thread_of s n).name)) }
    ensures favour_new { (s : State P P.State P.Shared) (t : ℕ) (n : ℤ) →
        Begins P.functions s t (call.Ctrl (query.Favournew n)) (
        refused EINVAL when not (n is_from pos 0 to pos 1) otherwise
        control_becomes (favours_new (n is 1)) then
        returns (if s.control.scheduler.favour_new then 1 else 0)) }
{}
