//! Stacks of cleanup handlers, by slot.

ghost use Rattle.std.specs.Prelude.{◌≡◌, ◌≢◌, ◌<◌, ◌≤◌, length, vec_len, IfErr, IfNone, OnOk, OnErr};
ghost use Rattle.pth_base.specs.Limits.{thread_limit};
ghost use Rattle.pth_base.specs.declared.refusal.Refusal.TheVariants as refusal;
ghost use Rattle.pth_store.specs.Cleanups.{stacks_of, top_first, is_full_stack, cleanup_limit, push_answer, pop_answer, below_top_answer, no_cleanups, with_top, top_taken, emptied};
ghost use Rattle.pth_store.specs.Storing.{AnswersWithMemory};

use pth_base::errno::Errno;
use pth_base::ids::{HandlerId, Slot};
use pth_base::memory::OutOfMemory;
use pth_base::refusal::Refusal;
use std::alloc::Global;
use std::marker::Model;

/// How many handlers a slot may have at once.
pub const MOST_CLEANUPS: usize = 256;

// The handlers of a slot with their arguments, the top last.
type Stack = Vec<(HandlerId, i64)>;

/// Stacks of cleanup handlers, one for each slot. Only a push takes memory.
pub struct Cleanups {
    alloc: Global,
    stacks: Vec<Stack>,
}

impl Model for Cleanups {
    ghost use Rattle.std.specs.Prelude.{List};
    ghost use Rattle.pth_store.specs.Cleanups.{PushedHandler, stacks_of, top_first, AreWithinLimit};

    ghost Value = { List (List PushedHandler) };

    ghost view = { λ a. top_first a.stacks };

    ghost invariant = { λ a. AreWithinLimit (stacks_of (top_first a.stacks)) };
}

// By hand, so that letting one go is one call in each proof.
impl Drop for Cleanups {
    fn drop(self) {
        let Cleanups {
            alloc: _,
            stacks: _,
        } = self;
    }
}

impl Cleanups {
    /// No handlers, which takes no memory.
    pub fn new(alloc: Global) -> Cleanups
        ensures { stacks_of result ≡ no_cleanups }
    {
        Cleanups {
            alloc,
            stacks: Vec::new(alloc),
        }
    }

    /// `pth_cleanup_push`: a handler with its argument comes on top of the stack of a slot. EAGAIN where that has 256.
    pub fn push(&mut self, s: Slot, h: HandlerId, arg: i64) -> Result<(), Refusal>
        requires { s.0 < thread_limit }
        ensures answer { AnswersWithMemory (push_answer (stacks_of self.old) s.0) result }
        ensures changes { OnOk result (stacks_of self.new ≡ with_top s.0 (h, arg) (stacks_of self.old)) }
        ensures refused { OnErr result (stacks_of self.new ≡ stacks_of self.old) }

        // Only for want of memory may the list be longer by empty stacks.
        ensures unchanged { IfErr result (λ e. e ≢ refusal.OutOfMemory → self.new ≡ self.old) }
    {
        let place = s.0 as usize;
        if is_full_at(&self.stacks, place) {
            return Err(Refusal::Fail(Errno::EAGAIN));
        }
        grow(self.alloc, &mut self.stacks, place)?;
        push_at(&mut self.stacks, place, (h, arg))?;
        Ok(())
    }

    /// `pth_cleanup_pop`: takes the top off the stack of a slot. `None` where that has no handler.
    pub fn pop(&mut self, s: Slot) -> Option<(HandlerId, i64)>
        ensures answer { result ≡ pop_answer (stacks_of self.old) s.0 }
        ensures changes { stacks_of self.new ≡ top_taken s.0 (stacks_of self.old) }
        ensures none { IfNone result (self.new ≡ self.old) }
    {
        pop_at(&mut self.stacks, s.0 as usize)
    }

    /// The handler that stands `n` below the top of the stack of a slot, with its argument: 0 is the top itself. `None` where
    /// no more than `n` stand there.
    pub fn below_top(&self, s: Slot, n: u32) -> Option<(HandlerId, i64)>
        ensures answer { result ≡ below_top_answer (stacks_of self.now) s.0 n }
        ensures few { length (stacks_of self.now s.0) ≤ cleanup_limit }
    {
        below_top_at(&self.stacks, s.0 as usize, n as usize)
    }

    /// A slot has no handlers any more. Those of the other slots stay.
    pub fn forget(&mut self, s: Slot)
        ensures { stacks_of self.new ≡ emptied s.0 (stacks_of self.old) }
    {
        clear_at(&mut self.stacks, s.0 as usize)
    }
}

// Whether the stack at a place has as many handlers as it may have.
fn is_full_at(stacks: &Vec<Stack>, place: usize) -> bool
    ensures { result ≡ is_full_stack (stacks_of (top_first stacks.now) place) }
{
    place < stacks.len() && stacks[place].len() == MOST_CLEANUPS
}

// Empty stacks are added, up to the one at a place.
fn grow(alloc: Global, stacks: &mut Vec<Stack>, place: usize) -> Result<(), OutOfMemory>
    requires { place < thread_limit }
    ensures room { OnOk result (place < vec_len stacks.new) }
    ensures same { stacks_of (top_first stacks.new) ≡ stacks_of (top_first stacks.old) }
{
    while stacks.len() <= place {
        stacks.push(Vec::new(alloc))?;
    }
    Ok(())
}

// Puts a handler on top of the stack at a place.
fn push_at(stacks: &mut Vec<Stack>, place: usize, c: (HandlerId, i64)) -> Result<(), OutOfMemory>
    requires { place < vec_len stacks.old }
    ensures changes { OnOk result (stacks_of (top_first stacks.new) ≡ with_top place c (stacks_of (top_first stacks.old))) }
    ensures refused { OnErr result (stacks_of (top_first stacks.new) ≡ stacks_of (top_first stacks.old)) }
{
    stacks[place].push(c)?;
    Ok(())
}

// Takes the top off the stack at a place.
fn pop_at(stacks: &mut Vec<Stack>, place: usize) -> Option<(HandlerId, i64)>
    ensures answer { result ≡ pop_answer (stacks_of (top_first stacks.old)) place }
    ensures changes { stacks_of (top_first stacks.new) ≡ top_taken place (stacks_of (top_first stacks.old)) }
    ensures none { IfNone result (top_first stacks.new ≡ top_first stacks.old) }
{
    if place < stacks.len() {
        stacks[place].pop()
    } else {
        None
    }
}

// The handler that stands n below the top of the stack at a place.
fn below_top_at(stacks: &Vec<Stack>, place: usize, n: usize) -> Option<(HandlerId, i64)>
    ensures { result ≡ below_top_answer (stacks_of (top_first stacks.now)) place n }
{
    if place >= stacks.len() {
        return None;
    }
    let stack = &stacks[place];
    if n >= stack.len() {
        return None;
    }
    Some(stack[stack.len() - 1 - n])
}

// Empties the stack at a place.
fn clear_at(stacks: &mut Vec<Stack>, place: usize)
    ensures { stacks_of (top_first stacks.new) ≡ emptied place (stacks_of (top_first stacks.old)) }
{
    if place < stacks.len() {
        stacks[place].clear();
    }
}
