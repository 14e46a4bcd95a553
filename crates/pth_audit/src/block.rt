//! What a thread ran in its block of marks that is open.

ghost use Rattle.std.specs.Prelude.{◌≡◌, ◌==◌, slice_get, option_copied, is_none, IfSome, IfNone, ◌&&◌, ℕ, ℤ, true, false, if◌then◌else◌, Some, OnOk};
ghost use Rattle.pth_laws.specs.Marks.{is_same};
ghost use Rattle.pth_laws.specs.Orderly.{RanLast};
ghost use Rattle.pth_audit.specs.Endings.{handlers_of, next_in, run_of, run_in, ran_nothing, with_handler, with_destructor, run_after};

use crate::handlers::Stack;
use crate::values::{Due, Values};
use pth_base::ids::{HandlerId, Tid};
use pth_base::mark::Mark;
use pth_base::memory::OutOfMemory;
use std::alloc::Global;

/// What was run in a block.
#[derive(Drop)]
pub(crate) struct Ran {
    // The handlers with their arguments, the first of them first.
    handlers: Vec<(HandlerId, i64)>,
    // Whether a destructor ran.
    begun: bool,
    // Whether no handler came after a destructor.
    handlers_first: bool,
    // How many rounds of destructors have begun, and the last key of this round.
    rounds: u8,
    last: Option<i64>,
    // Whether each destructor was the next one.
    in_turn: bool,
}

/// The block that is open, of one thread, or none.
#[derive(Drop)]
pub(crate) struct Block {
    alloc: Global,
    thread: Option<u32>,
    ran: Ran,
}

impl Block {
    /// No block is open.
    pub(crate) fn new(alloc: Global) -> Block
        ensures { (t : ℕ) → run_in result t ≡ ran_nothing }
    {
        Block {
            alloc,
            thread: None,
            ran: Ran::new(alloc),
        }
    }

    /// After a mark, with the values before it.
    pub(crate) fn add(&mut self, values: &Values, mark: &Mark) -> Result<(), OutOfMemory>
        ensures { OnOk result ((t : ℕ) → run_in self.new t ≡ run_after t
            (next_in values.now t) (run_in self.old t) mark.now) }
    {
        match mark {
            Mark::Handler { tid, handler, arg } => {
                self.open(*tid);
                self.ran.add_handler((*handler, *arg))
            }
            Mark::Destructor { tid, key, arg } => {
                self.open(*tid);
                self.ran.add_destructor(values, *tid, i64::from(*key), *arg);
                Ok(())
            }
            Mark::Acted { tid, .. }
            | Mark::GaveMutex { tid, .. }
            | Mark::GaveLock { tid, .. }
            | Mark::Withdrew { tid, .. } => {
                self.open(*tid);
                Ok(())
            }
            _ => {
                self.thread = None;
                Ok(())
            }
        }
    }

    /// Whether a thread ran these handlers in its block, in this order.
    pub(crate) fn has_run(&self, t: Tid, pending: Option<&Stack>) -> bool
        ensures yes { result ≡ true → (run_in self.now t.0).handlers ≡ handlers_of (option_copied pending.entry) }
        ensures no { result ≡ false → (run_in self.now t.0).handlers ≡ handlers_of (option_copied pending.entry) → ⊥ }
    {
        match (self.of(t), pending) {
            (Some(ran), Some(stack)) => are_same(ran.handlers.as_slice(), stack),
            (Some(ran), None) => ran.handlers.is_empty(),
            (None, Some(stack)) => stack.is_empty(),
            (None, None) => true,
        }
    }

    /// Whether a thread ran one handler in its block, the last of these.
    pub(crate) fn has_run_last(&self, t: Tid, pending: Option<&Stack>) -> bool
        ensures yes { result ≡ true → RanLast (run_in self.now t.0).handlers (handlers_of (option_copied pending.entry)) }
        ensures no { result ≡ false → RanLast (run_in self.now t.0).handlers (handlers_of (option_copied pending.entry)) → ⊥ }
    {
        match (self.of(t), pending) {
            (Some(ran), Some(stack)) => is_top(ran.handlers.as_slice(), stack),
            _ => false,
        }
    }

    /// Whether a thread ran no handler after a destructor in its block, and each destructor was the next one.
    pub(crate) fn is_fine(&self, t: Tid) -> bool
        ensures { result ≡ ((run_in self.now t.0).handlers_first && (run_in self.now t.0).in_turn) }
    {
        match self.of(t) {
            Some(ran) => ran.handlers_first && ran.in_turn,
            None => true,
        }
    }

    /// Whether no destructor is next for a thread after its block.
    pub(crate) fn is_over(&self, t: Tid, values: &Values) -> bool
        ensures { result ≡ is_none (next_in values.now t.0 (run_in self.now t.0).stage) }
    {
        match self.of(t) {
            Some(ran) => values.next(t, ran.rounds, ran.last).is_none(),
            None => values.next(t, 1, None).is_none(),
        }
    }

    // What a thread ran in its block, if it has one.
    fn of(&self, t: Tid) -> Option<&Ran>
        ensures some { IfSome result (λ x. run_in self.now t.0 ≡ run_of x.now) }
        ensures none { IfNone result (run_in self.now t.0 ≡ ran_nothing) }
    {
        if self.is_of(t) { Some(&self.ran) } else { None }
    }

    // The block of a thread is open, and any other is closed.
    fn open(&mut self, t: Tid)
        ensures thread { self.new.thread ≡ Some t.0 }
        ensures ran { run_of self.new.ran ≡ run_in self.old t.0 }
    {
        if !self.is_of(t) {
            self.thread = Some(t.0);
            self.ran = Ran::new(self.alloc);
        }
    }

    // Whether the open block is of this thread.
    fn is_of(&self, t: Tid) -> bool
        ensures yes { result ≡ true → self.now.thread ≡ Some t.0 }
        ensures no { result ≡ false → run_in self.now t.0 ≡ ran_nothing }
    {
        match self.thread {
            Some(u) => u == t.0,
            None => false,
        }
    }
}

impl Ran {
    // Nothing was run.
    fn new(alloc: Global) -> Ran
        ensures { run_of result ≡ ran_nothing }
    {
        Ran {
            handlers: Vec::new(alloc),
            begun: false,
            handlers_first: true,
            rounds: 1,
            last: None,
            in_turn: true,
        }
    }

    // A handler runs.
    fn add_handler(&mut self, c: (HandlerId, i64)) -> Result<(), OutOfMemory>
        ensures { OnOk result (run_of self.new ≡ with_handler c (run_of self.old)) }
    {
        self.handlers_first = self.handlers_first && !self.begun;
        self.handlers.push(c)?;
        Ok(())
    }

    // A destructor runs, with a key and a value.
    fn add_destructor(&mut self, values: &Values, t: Tid, key: i64, v: i64)
        ensures { run_of self.new ≡ with_destructor (next_in values.now t.0 (run_of self.old).stage) key v
            (run_of self.old) }
    {
        self.take(values.next(t, self.rounds, self.last), key, v);
    }

    // The same, where this one is due.
    fn take(&mut self, due: Option<Due>, key: i64, v: i64)
        ensures { run_of self.new ≡ with_destructor due key v (run_of self.old) }
    {
        self.begun = true;
        match due {
            Some(due) => {
                self.in_turn = self.in_turn && is_due(due, key, v);
                self.rounds = due.rounds;
                self.last = Some(due.key);
            }
            None => self.in_turn = false,
        }
    }
}

// Whether these are the same handlers, in the same order.
fn are_same(ran: &[(HandlerId, i64)], pending: &Stack) -> bool
    ensures yes { result ≡ true → ran.now ≡ pending.now.items }
    ensures no { result ≡ false → ran.now ≡ pending.now.items → ⊥ }
{
    if ran.len() != pending.len() {
        return false;
    }
    for (i, c) in ran.iter().enumerate() {
        if !is_at(pending, i, c) {
            return false;
        }
    }
    true
}

// Whether one handler ran, the first of the stack.
fn is_top(ran: &[(HandlerId, i64)], pending: &Stack) -> bool
    ensures yes { result ≡ true → RanLast ran.now pending.now.items }
    ensures no { result ≡ false → RanLast ran.now pending.now.items → ⊥ }
{
    match ran {
        [c] => is_at(pending, 0, c),
        _ => false,
    }
}

// Whether a stack has this handler at a place.
fn is_at(pending: &Stack, i: usize, c: &(HandlerId, i64)) -> bool
    ensures yes { result ≡ true → slice_get pending.now.items i ≡ Some c.now }
    ensures no { result ≡ false → slice_get pending.now.items i ≡ Some c.now → ⊥ }
{
    match pending.get(i) {
        Some(d) => is_same(d, c),
        None => false,
    }
}

// Whether these are the same handler and argument.
fn is_same(c: &(HandlerId, i64), d: &(HandlerId, i64)) -> bool
    ensures yes { result ≡ true → c.now ≡ d.now }
    ensures no { result ≡ false → c.now ≡ d.now → ⊥ }
{
    c.0.0 == d.0.0 && c.1 == d.1
}

// Whether the destructor that is due has this key and this value.
fn is_due(due: Due, key: i64, v: i64) -> bool
    ensures { result ≡ (is_same due.key key && is_same due.value v) }
{
    due.key == key && due.value == v
}
