//! How far the threads are in their programs, by slot.
//!
//! A step is made in place: taking the state out and putting it back copied it five times, which cost more than a plain line.

ghost use Rattle.std.specs.Prelude.{◌≡◌, ◌<◌, ℕ, Option, Some, None, IsSome, IfOk, option_copied, option_map, length};
ghost use Rattle.pth_base.specs.Limits.{thread_limit};
ghost use Rattle.pth_base.specs.Table.{put, table};
ghost use Rattle.pth_model.specs.Changes.{owed_in, blocked_in, owing, blocking};
ghost use Rattle.pth_tables.specs.Progress.{awaited_at};
ghost use Rattle.pth_tables.specs.StepsAt.{StepsAt};

use pth_base::answer::Answer;
use pth_base::call::Call;
use pth_base::ids::Slot;
use pth_base::limits::MOST_THREADS;
use pth_base::memory::OutOfMemory;
use pth_base::program::Program;
use pth_model::awaits::Awaited;
use pth_model::blocked::Blocked;
use pth_model::progress::Progress;
use std::alloc::Global;
use std::marker::Model;
use std::mem;

/// How many slots there are.
const SLOTS: usize = MOST_THREADS as usize;

/// How far the thread at each slot is in its program, if there is one. What it waits for stands beside it, so that to ask
/// for it reads no call.
pub struct ProgressTable<S> {
    items: Vec<Option<Progress<S>>>,
    awaited: Vec<Awaited>,
}

impl<S> Model for ProgressTable<S> {
    ghost use Rattle.std.specs.Prelude.{List, Option};
    ghost use Rattle.pth_model.specs.declared.progress.Progress.{Progress};
    ghost use Rattle.pth_tables.specs.Progress.{IsAwaitedBeside};

    ghost Value = { List (Option (Progress S)) };

    ghost view = { λ a. a.items.items };

    ghost invariant = { λ a. IsAwaitedBeside a.items.items a.awaited.items };
}

// By hand, so that letting one go is one call in each proof.
impl<S: Drop> Drop for ProgressTable<S> {
    fn drop(self) {
        let ProgressTable {
            items: _,
            awaited: _,
        } = self;
    }
}

impl<S: Drop> ProgressTable<S> {
    /// Nothing at any slot, with room for all.
    pub fn new(alloc: Global) -> Result<ProgressTable<S>, OutOfMemory>
        ensures none { IfOk result (λ c. table None c ≡ (λ _. None)) }
        ensures long { IfOk result (λ c. length c ≡ thread_limit) }
    {
        let mut items = Vec::with_capacity(alloc, SLOTS)?;
        while items.len() < SLOTS {
            items.push(None)?;
        }
        let awaited = vec![in alloc; Awaited::NOTHING; SLOTS]?;
        Ok(ProgressTable { items, awaited })
    }

    /// Sets how far the thread at a slot is.
    pub fn set(&mut self, s: Slot, p: Option<Progress<S>>)
        requires { s.0 < thread_limit }
        ensures set { table None self.new ≡ put (table None self.old) s.0 p }
        ensures long { length self.new ≡ thread_limit }
    {
        self.awaited[s.0 as usize] = awaited_in(&p);
        self.items[s.0 as usize] = p;
    }

    /// How far the thread at a slot is.
    pub fn get(&self, s: Slot) -> Option<&Progress<S>>
        requires { s.0 < thread_limit }
        ensures { option_copied result ≡ table None self.now s.0 }
    {
        self.items[s.0 as usize].as_ref()
    }

    /// What the thread at a slot waits for: nothing where no call blocks it, or no thread is there.
    pub fn awaited(&self, s: Slot) -> Awaited
        requires { s.0 < thread_limit }
        ensures { result ≡ awaited_at (table None self.now s.0) }
    {
        self.awaited[s.0 as usize]
    }

    /// Sets the call that blocks the thread at a slot.
    pub fn block(&mut self, s: Slot, b: Blocked)
        requires { s.0 < thread_limit }
        ensures set { table None self.new ≡ put (table None self.old) s.0 (option_map (blocking (Some b)) (table None self.old s.0)) }
        ensures long { length self.new ≡ thread_limit }
    {
        match &mut self.items[s.0 as usize] {
            Some(p) => {
                self.awaited[s.0 as usize] = b.awaited();
                block_by(p, b);
            }
            None => let_go(b),
        }
    }

    /// Takes out the call that blocks the thread at a slot.
    pub fn unblock(&mut self, s: Slot) -> Option<Blocked>
        requires { s.0 < thread_limit }
        ensures value { result ≡ blocked_in (table None self.old s.0) }
        ensures set { table None self.new ≡ put (table None self.old) s.0 (option_map (blocking None) (table None self.old s.0)) }
        ensures long { length self.new ≡ thread_limit }
    {
        self.awaited[s.0 as usize] = Awaited::NOTHING;
        match &mut self.items[s.0 as usize] {
            Some(p) => p.blocked.take(),
            None => None,
        }
    }

    /// Sets the answer that is owed to the thread at a slot.
    pub fn owe(&mut self, s: Slot, a: Answer)
        requires { s.0 < thread_limit }
        ensures set { table None self.new ≡ put (table None self.old) s.0 (option_map (owing a) (table None self.old s.0)) }
        ensures long { length self.new ≡ thread_limit }
    {
        if let Some(p) = &mut self.items[s.0 as usize] {
            p.owed = a;
        }
    }

    /// Takes out the answer that is owed to the thread at a slot.
    pub fn take_owed(&mut self, s: Slot) -> Answer
        requires { s.0 < thread_limit }
        ensures value { result ≡ owed_in (table None self.old s.0) }
        ensures set { table None self.new ≡ put (table None self.old) s.0 (option_map (owing Answer.None) (table None self.old s.0)) }
        ensures long { length self.new ≡ thread_limit }
    {
        match &mut self.items[s.0 as usize] {
            Some(p) => mem::replace(&mut p.owed, Answer::None),
            None => Answer::None,
        }
    }
}

// What a thread waits for, if there is one.
fn awaited_in<S>(p: &Option<Progress<S>>) -> Awaited
    ensures { result ≡ awaited_at p.now }
{
    match p {
        Some(p) => match &p.blocked {
            Some(b) => b.awaited(),
            None => Awaited::NOTHING,
        },
        None => Awaited::NOTHING,
    }
}

// Lets a call go that blocks nobody.
fn let_go(_b: Blocked) {}

// Sets the call that blocks a thread.
fn block_by<S>(p: &mut Progress<S>, b: Blocked)
    ensures { p.new ≡ blocking (Some b) p.old }
{
    p.blocked = Some(b);
}

/// The program's step at the state of the thread at a slot, which is changed where it stands. After an error nothing is known
/// of it.
#[tactic(auto, using(pth_base::proofs::Lists::table_set, pth_base::proofs::Lists::put_none))]
pub fn step_at<P: Program>(
    program: &P,
    alloc: Global,
    progress: &mut ProgressTable<P::State>,
    s: Slot,
    shared: &mut P::Shared,
    answer: &Answer,
) -> Result<Call, OutOfMemory>
    requires low { s.0 < thread_limit }
    requires some { IsSome (table None progress.old s.0) }
    ensures step { IfOk result (λ call. StepsAt (P.functions program.now) s.0 (table None progress.old) (table None progress.new) shared.old shared.new answer.now call) }
    ensures long { length progress.new ≡ thread_limit }
{
    match &mut progress.items[s.0 as usize] {
        Some(p) => program.step(alloc, &mut p.state, shared, answer),
        None => unreachable!(),
    }
}
