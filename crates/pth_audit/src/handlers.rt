//! The handlers that threads have pending.

ghost use Rattle.std.specs.Prelude.{◌≡◌, ◌==◌, ℕ, [], ◌∷◌, if◌then◌else◌, IsSome, OnOk, option_copied};
ghost use Rattle.std.specs.Ordering.{nat_cmp};
ghost use Rattle.std.specs.BTreeMap.{get};
ghost use Rattle.pth_store.specs.Cleanups.{without_top};
ghost use Rattle.pth_model.specs.Resources.{handler as handler_named};
ghost use Rattle.pth_laws.specs.Orderly.{pending_after};
ghost use Rattle.pth_audit.specs.Endings.{handlers_of, pending_in};

use pth_base::answer::Answer;
use pth_base::call::Call;
use pth_base::ids::{HandlerId, Tid};
use pth_base::mark::Mark;
use pth_base::memory::OutOfMemory;
use std::alloc::Global;
use std::collections::{BTreeMap, VecDeque};

/// The handlers of a thread with their arguments, the last pushed first.
pub(crate) type Stack = VecDeque<(HandlerId, i64)>;

/// The handlers that each thread has pending.
#[derive(Drop)]
pub(crate) struct Handlers {
    alloc: Global,
    stacks: BTreeMap<u32, Stack>,
}

impl Handlers {
    /// No thread has a handler.
    pub(crate) fn new(alloc: Global) -> Handlers
        ensures { (t : ℕ) → pending_in result.stacks t ≡ [] }
    {
        Handlers {
            alloc,
            stacks: BTreeMap::new(alloc),
        }
    }

    /// The handlers of a thread, if it had any before.
    pub(crate) fn of(&self, t: Tid) -> Option<&Stack>
        ensures { option_copied result ≡ get nat_cmp self.now.stacks t.0 }
    {
        self.stacks.get(&t.0)
    }

    /// After a mark.
    pub(crate) fn add(&mut self, mark: &Mark) -> Result<(), OutOfMemory>
        ensures { OnOk result ((t : ℕ) → pending_in self.new.stacks t
            ≡ pending_after t (pending_in self.old.stacks t) mark.now) }
    {
        match mark {
            Mark::Answered {
                tid,
                call: Call::CleanupPush { h, v },
                answer: Answer::Int(1),
            } => push(self.alloc, &mut self.stacks, *tid, (handler_named(*h), *v)),
            Mark::Answered {
                tid,
                call: Call::CleanupPop(_),
                answer: Answer::Int(1),
            } => {
                pop(&mut self.stacks, *tid);
                Ok(())
            }
            Mark::Ended { tid, .. } => {
                forget(&mut self.stacks, *tid);
                Ok(())
            }
            _ => Ok(()),
        }
    }
}

/// The handler that an operand names.
pub(crate) fn handler_named(n: i64) -> HandlerId
    ensures { result ≡ handler_named n }
{
    HandlerId(u32::try_from(n).unwrap_or(u32::MAX))
}

// A handler more on a thread's stack.
fn push(
    alloc: Global,
    stacks: &mut BTreeMap<u32, Stack>,
    t: Tid,
    c: (HandlerId, i64),
) -> Result<(), OutOfMemory>
    ensures { OnOk result ((u : ℕ) → pending_in stacks.new u
        ≡ (if t.0 == u then c ∷ pending_in stacks.old u else pending_in stacks.old u)) }
{
    open(alloc, stacks, t)?;
    push_at(stacks, t, c)
}

// A thread has a stack, if an empty one.
fn open(alloc: Global, stacks: &mut BTreeMap<u32, Stack>, t: Tid) -> Result<(), OutOfMemory>
    ensures there { OnOk result (IsSome (get nat_cmp stacks.new t.0)) }
    ensures same { OnOk result ((u : ℕ) → pending_in stacks.new u ≡ pending_in stacks.old u) }
{
    if stacks.get(&t.0).is_none() {
        let _none = stacks.insert(t.0, VecDeque::new(alloc))?;
    }
    Ok(())
}

// The same, where the thread has a stack.
fn push_at(
    stacks: &mut BTreeMap<u32, Stack>,
    t: Tid,
    c: (HandlerId, i64),
) -> Result<(), OutOfMemory>
    requires { IsSome (get nat_cmp stacks.old t.0) }
    ensures { OnOk result ((u : ℕ) → pending_in stacks.new u
        ≡ (if t.0 == u then c ∷ pending_in stacks.old u else pending_in stacks.old u)) }
{
    match stacks.get_mut(&t.0) {
        Some(stack) => push_front(stack, c),
        None => Ok(()),
    }
}

// A handler more on a stack.
fn push_front(stack: &mut Stack, c: (HandlerId, i64)) -> Result<(), OutOfMemory>
    ensures { OnOk result (stack.new.items ≡ c ∷ stack.old.items) }
{
    stack.push_front(c)?;
    Ok(())
}

// A thread's last handler is taken, if it has one.
fn pop(stacks: &mut BTreeMap<u32, Stack>, t: Tid)
    ensures { (u : ℕ) → pending_in stacks.new u
        ≡ (if t.0 == u then without_top (pending_in stacks.old u) else pending_in stacks.old u) }
{
    if let Some(stack) = stacks.get_mut(&t.0) {
        pop_front(stack);
    }
}

// The first of a stack is taken, if there is one.
fn pop_front(stack: &mut Stack)
    ensures { stack.new.items ≡ without_top stack.old.items }
{
    let _top = stack.pop_front();
}

// A thread has no handlers any more.
fn forget(stacks: &mut BTreeMap<u32, Stack>, t: Tid)
    ensures { (u : ℕ) → pending_in stacks.new u
        ≡ (if t.0 == u then [] else pending_in stacks.old u) }
{
    let _stack = stacks.remove(&t.0);
}
