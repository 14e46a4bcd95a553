//! Follows a list of marks, and says of each mark whether it is orderly.

ghost use Rattle.std.specs.Prelude.{◌≡◌, ◌∷◌, ◌++◌, [], true, false, not, List, Option, None, OnOk, option_map};
ghost use Rattle.std.specs.Ordering.{nat_cmp};
ghost use Rattle.std.specs.BTreeSet.{contains};
ghost use Rattle.pth_base.specs.declared.mark.Mark.{Mark as MarkOf};
ghost use Rattle.pth_threads.specs.Threads.{number_of};
ghost use Rattle.pth_laws.specs.Marks.{thread_of};
ghost use Rattle.pth_laws.specs.Orderly.{RanLast, IsOrderlyAt};
ghost use Rattle.pth_audit.specs.Endings.{FollowsEndings, pending_in, run_in, is_so_of, is_so_of_call, PopsRightly, MayEnd, EndsRightly, AsksAll};

use crate::block::Block;
use crate::handlers::Handlers;
use crate::threads::Threads;
use crate::values::Values;
use pth_base::answer::Answer;
use pth_base::call::Call;
use pth_base::ids::Tid;
use pth_base::mark::Mark;
use pth_base::memory::OutOfMemory;
use std::alloc::Global;

/// What the marks so far say of who has ended and was canceled, of the handlers, keys and values that threads have, and of the block that is open.
#[derive(Drop)]
pub(crate) struct Endings {
    threads: Threads,
    handlers: Handlers,
    values: Values,
    block: Block,
}

impl Endings {
    /// There is no mark.
    pub(crate) fn new(alloc: Global) -> Endings
        ensures { FollowsEndings result [] }
    {
        Endings {
            threads: Threads::new(alloc),
            handlers: Handlers::new(alloc),
            values: Values::new(alloc),
            block: Block::new(alloc),
        }
    }

    /// There is a mark more.
    pub(crate) fn add(&mut self, mark: &Mark) -> Result<(), OutOfMemory>
        ensures { OnOk result ((marks : List MarkOf) → FollowsEndings self.old marks → FollowsEndings self.new (marks ++ mark.now ∷ [])) }
    {
        self.block.add(&self.values, mark)?;
        self.threads.add(mark)?;
        self.handlers.add(mark)?;
        self.values.add(mark)?;
        Ok(())
    }

    /// Whether a mark is orderly after the marks so far.
    pub(crate) fn is_lawful(&self, mark: &Mark) -> bool
        ensures yes { result ≡ true → (marks : List MarkOf) → FollowsEndings self.now marks → IsOrderlyAt marks mark.now }
        ensures no { result ≡ false → (marks : List MarkOf) → FollowsEndings self.now marks → IsOrderlyAt marks mark.now → ⊥ }
    {
        self.asks_all(mark)
    }

    // Whether all that is asked of a mark holds.
    fn asks_all(&self, mark: &Mark) -> bool
        ensures yes { result ≡ true → AsksAll self.now mark.now }
        ensures no { result ≡ false → AsksAll self.now mark.now → ⊥ }
    {
        !self.is_of_ended(mark)
            && !self.is_of_canceled(mark)
            && self.pops_rightly(mark)
            && self.ends_rightly(mark)
    }

    // Whether the thread of a mark has ended.
    fn is_of_ended(&self, mark: &Mark) -> bool
        ensures { result ≡ is_so_of (contains nat_cmp self.now.threads.ended) (thread_of mark.now) }
    {
        match thread_of(mark) {
            Some(t) => self.threads.has_ended(t),
            None => false,
        }
    }

    // Whether a mark is of a call of a thread that was canceled.
    fn is_of_canceled(&self, mark: &Mark) -> bool
        ensures { result ≡ is_so_of_call (contains nat_cmp self.now.threads.canceled) mark.now }
    {
        match mark {
            Mark::Answered { tid, .. } | Mark::Waits { tid, .. } | Mark::Noted { tid, .. } => self
                .threads
                .was_canceled(*tid),
            _ => false,
        }
    }

    // Whether a mark is no pop that runs a handler, or the last pending one was run.
    fn pops_rightly(&self, mark: &Mark) -> bool
        ensures yes { result ≡ true → PopsRightly self.now mark.now }
        ensures no { result ≡ false → PopsRightly self.now mark.now → ⊥ }
    {
        match mark {
            Mark::Answered {
                tid,
                call: Call::CleanupPop(v),
                answer: Answer::Int(1),
            } => *v == 0 || self.has_run_last(*tid),
            _ => true,
        }
    }

    // Whether a thread has just run one handler, the last that is pending.
    fn has_run_last(&self, t: Tid) -> bool
        ensures yes { result ≡ true → RanLast (run_in self.now.block t.0).handlers (pending_in self.now.handlers.stacks t.0) }
        ensures no { result ≡ false → RanLast (run_in self.now.block t.0).handlers (pending_in self.now.handlers.stacks t.0) → ⊥ }
    {
        self.block.has_run_last(t, self.handlers.of(t))
    }

    // Whether a mark is no end, or the thread may end so.
    fn ends_rightly(&self, mark: &Mark) -> bool
        ensures yes { result ≡ true → EndsRightly self.now mark.now }
        ensures no { result ≡ false → EndsRightly self.now mark.now → ⊥ }
    {
        match mark {
            Mark::Ended { tid, value } => self.may_end(*tid, *value),
            _ => true,
        }
    }

    // Whether a thread may end with a value.
    fn may_end(&self, t: Tid, value: i64) -> bool
        ensures yes { result ≡ true → MayEnd self.now t.0 value }
        ensures no { result ≡ false → MayEnd self.now t.0 value → ⊥ }
    {
        (!self.threads.was_canceled(t) || value == -1)
            && self.block.has_run(t, self.handlers.of(t))
            && self.block.is_fine(t)
            && self.block.is_over(t, &self.values)
    }
}

// The thread of a mark.
fn thread_of(mark: &Mark) -> Option<Tid>
    ensures { option_map number_of result ≡ thread_of mark.now }
{
    match mark {
        Mark::Moved { .. } => None,
        Mark::Dispatch { tid, .. }
        | Mark::Answered { tid, .. }
        | Mark::Waits { tid, .. }
        | Mark::Retakes { tid, .. }
        | Mark::Canceled { tid, .. }
        | Mark::Took { tid, .. }
        | Mark::Withdrew { tid, .. }
        | Mark::Handler { tid, .. }
        | Mark::Destructor { tid, .. }
        | Mark::Acted { tid, .. }
        | Mark::GaveMutex { tid, .. }
        | Mark::GaveLock { tid, .. }
        | Mark::Ended { tid, .. }
        | Mark::Noted { tid, .. }
        | Mark::Woke { tid, .. } => Some(*tid),
    }
}
