//! The judge of exclusive marks: who has mutexes and locks, by the marks that it has met.

ghost use Rattle.std.specs.Prelude.{◌≡◌, ◌≢◌, ◌==◌, ◌||◌, ◌&&◌, not, ◌+◌, ◌<◌, ◌≤◌, ◌^◌, ℕ, ℤ, true, false, length, List, [], ◌∷◌, ◌++◌, OnOk, IsErrOf, if◌then◌else◌};
ghost use Rattle.std.specs.Bool.{Decides};
ghost use Rattle.std.specs.BTreeMap.{get, values, IsOrdered};
ghost use Rattle.std.specs.BTreeSet.{contains};
ghost use Rattle.std.specs.List.{list_any};
ghost use Rattle.std.specs.Ordering.{int_cmp, int_eq, nat_cmp};
ghost use Rattle.pth_base.specs.declared.mark.Mark.{Mark as MarkOf};
ghost use Rattle.pth_audit.specs.Holds.{answered_effect, waits_effect, effect_of, answered_step, waits_step, step_of, has_awaited, has_levels, has_written, has_read, reads_under, awaits_by, levels_of, has_level, is_writer, FollowsHolds, HasNothing, IsOpen, IsFair, IsCountable, IsDone};
ghost use Rattle.pth_audit.specs.declared.holds.Effect.TheVariants.{Takes, Gives, GivesUp, Enters, Leaves};
ghost use Rattle.pth_laws.specs.Exclusive.{IsExclusiveAt, is_of};
ghost use Rattle.pth_laws.specs.Marks.{is_same};

use crate::error::AuditErr;
use crate::success::is_one;
use pth_base::act::Act;
use pth_base::answer::Answer;
use pth_base::call::Call;
use pth_base::mark::Mark;
use pth_base::memory::OutOfMemory;
use std::alloc::Global;
use std::collections::{BTreeMap, BTreeSet};

// What a mark does with a mutex or a lock: a thread takes a level of a mutex, gives one back, gives the mutex up, enters a lock, to write
// or to read, leaves it, or ends.
#[derive(Clone, Copy)]
enum Effect {
    Nothing,
    Takes(u32, i64),
    Gives(u32, i64),
    GivesUp(u32, i64),
    Enters(u32, i64, bool),
    Leaves(u32, i64),
    Ends(u32),
}

// Who begins or ceases to await a condition.
#[derive(Clone, Copy)]
enum AwaitStep {
    Begins(u32),
    Ceases(u32),
    Same,
}

fn answered_effect(awaiting: bool, u: u32, call: &Call, answer: &Answer) -> Effect
    ensures { result ≡ answered_effect awaiting u call.now answer.now }
{
    let done = is_one(answer);
    match call {
        Call::MutexAcquire { m, .. } if done => Effect::Takes(u, *m),
        Call::CondAwait { m, .. } if awaiting => Effect::Takes(u, *m),
        Call::MutexRelease(m) if done => Effect::Gives(u, *m),
        Call::RwAcquire { l, write, .. } if done => Effect::Enters(u, *l, *write),
        Call::RwRelease(l) if done => Effect::Leaves(u, *l),
        _ => Effect::Nothing,
    }
}

fn waits_effect(awaiting: bool, u: u32, call: &Call) -> Effect
    ensures { result ≡ waits_effect awaiting u call.now }
{
    match call {
        Call::CondAwait { m, .. } if !awaiting => Effect::Gives(u, *m),
        _ => Effect::Nothing,
    }
}

fn answered_step(u: u32, call: &Call) -> AwaitStep
    ensures { result ≡ answered_step u call.now }
{
    match call {
        Call::CondAwait { .. } => AwaitStep::Ceases(u),
        _ => AwaitStep::Same,
    }
}

fn waits_step(u: u32, call: &Call) -> AwaitStep
    ensures { result ≡ waits_step u call.now }
{
    match call {
        Call::CondAwait { .. } => AwaitStep::Begins(u),
        _ => AwaitStep::Same,
    }
}

fn step_of(mark: &Mark) -> AwaitStep
    ensures { result ≡ step_of mark.now }
{
    match mark {
        Mark::Answered { tid, call, .. } => answered_step(tid.0, call),
        Mark::Waits { tid, call } => waits_step(tid.0, call),
        Mark::Took { tid, .. } => AwaitStep::Ceases(tid.0),
        Mark::Ended { tid, .. } => AwaitStep::Ceases(tid.0),
        _ => AwaitStep::Same,
    }
}

// Who has a mutex, with how many levels.
#[derive(Clone, Copy)]
struct Owner {
    tid: u32,
    levels: u64,
}

// How many levels a thread has, by who has the mutex.
fn levels_of(t: u32, owner: Option<Owner>) -> u64
    ensures { result ≡ levels_of t owner }
{
    match owner {
        Some(o) if o.tid == t => o.levels,
        _ => 0,
    }
}

// No other thread has a level.
fn is_free_for(t: u32, owner: Option<Owner>) -> bool
    ensures { Decides result ((u : ℕ) → u ≢ t → levels_of u owner ≡ 0) }
{
    match owner {
        Some(o) => o.tid == t || o.levels == 0,
        None => true,
    }
}

// A thread is the one that writes.
fn is_writer(t: u32, writer: Option<u32>) -> bool
    ensures { result ≡ is_writer t writer }
{
    match writer {
        Some(u) => u == t,
        None => false,
    }
}

// Nobody writes.
fn is_unwritten(writer: Option<u32>) -> bool
    ensures { Decides result ((u : ℕ) → is_writer u writer ≡ false) }
{
    match writer {
        Some(_) => false,
        None => true,
    }
}

// A thread has a level of some mutex.
fn has_some(owners: &BTreeMap<i64, Owner>, t: u32) -> bool
    ensures is { result ≡ list_any (has_level t) (values owners.now) }
    ensures ordered { IsOrdered int_cmp owners.now }
{
    owners.values().any(|o| o.tid == t && o.levels != 0)
}

// A thread writes under some lock.
fn writes_some(writers: &BTreeMap<i64, u32>, t: u32) -> bool
    ensures is { result ≡ list_any (λ u. u == t) (values writers.now) }
    ensures ordered { IsOrdered int_cmp writers.now }
{
    writers.values().any(|u| *u == t)
}

// A thread reads under some lock.
fn reads_some(readers: &BTreeSet<(i64, u32)>, t: u32) -> bool
    ensures { result ≡ list_any (λ x. x.1 == t) readers.now.keys }
{
    readers.iter().any(|x| x.1 == t)
}

// Some thread reads under a lock.
fn is_read(readers: &BTreeSet<(i64, u32)>, l: i64) -> bool
    ensures { result ≡ list_any (λ x. int_eq x.0 l) readers.now.keys }
{
    readers.iter().any(|x| x.0 == l)
}

// A thread has so many levels of a mutex, and no other one has any.
fn set_levels(
    owners: &mut BTreeMap<i64, Owner>,
    t: u32,
    i: i64,
    levels: u64,
) -> Result<(), OutOfMemory>
    ensures { OnOk result ((u : ℕ) (k : ℤ) → levels_of u (get int_cmp owners.new k)
        ≡ (if is_same k i then (if t == u then levels else 0) else levels_of u (get int_cmp owners.old k))) }
{
    if levels == 0 {
        let _owner = owners.remove(&i);
    } else {
        let _owner = owners.insert(i, Owner { tid: t, levels })?;
    }
    Ok(())
}

// A thread writes under a lock, and no other one.
fn add_writer(writers: &mut BTreeMap<i64, u32>, t: u32, l: i64) -> Result<(), OutOfMemory>
    ensures { OnOk result ((u : ℕ) (k : ℤ) → is_writer u (get int_cmp writers.new k)
        ≡ (if is_same k l then t == u else is_writer u (get int_cmp writers.old k))) }
{
    let _writer = writers.insert(l, t)?;
    Ok(())
}

// A thread writes under a lock no more.
fn remove_writer(writers: &mut BTreeMap<i64, u32>, t: u32, l: i64)
    ensures { (u : ℕ) (k : ℤ) → is_writer u (get int_cmp writers.new k)
        ≡ (not (is_of u k t l) && is_writer u (get int_cmp writers.old k)) }
{
    match writers.get(&l) {
        Some(u) if *u == t => {
            let _writer = writers.remove(&l);
        }
        _ => {}
    }
}

fn add_reader(readers: &mut BTreeSet<(i64, u32)>, t: u32, l: i64) -> Result<(), OutOfMemory>
    ensures { OnOk result ((u : ℕ) (k : ℤ) → reads_under readers.new u k ≡ (is_of u k t l || reads_under readers.old u k)) }
{
    let _fresh = readers.insert((l, t))?;
    Ok(())
}

fn remove_reader(readers: &mut BTreeSet<(i64, u32)>, t: u32, l: i64)
    ensures { (u : ℕ) (k : ℤ) → reads_under readers.new u k ≡ (not (is_of u k t l) && reads_under readers.old u k) }
{
    let _was = readers.remove(&(l, t));
}

// Who begins or ceases to await.
fn set_awaiting(awaiting: &mut BTreeSet<u32>, step: AwaitStep) -> Result<(), OutOfMemory>
    ensures { OnOk result ((u : ℕ) → contains nat_cmp awaiting.new u ≡ awaits_by step u (contains nat_cmp awaiting.old u)) }
{
    match step {
        AwaitStep::Begins(t) => {
            let _fresh = awaiting.insert(t)?;
        }
        AwaitStep::Ceases(t) => {
            let _was = awaiting.remove(&t);
        }
        AwaitStep::Same => {}
    }
    Ok(())
}

/// Who has mutexes and locks after the marks that were met.
#[derive(Drop)]
pub(crate) struct Holds {
    awaiting: BTreeSet<u32>,
    owners: BTreeMap<i64, Owner>,
    writers: BTreeMap<i64, u32>,
    readers: BTreeSet<(i64, u32)>,
}

impl Holds {
    pub(crate) fn new(alloc: Global) -> Holds
        ensures { FollowsHolds result [] }
    {
        Holds {
            awaiting: BTreeSet::new(alloc),
            owners: BTreeMap::new(alloc),
            writers: BTreeMap::new(alloc),
            readers: BTreeSet::new(alloc),
        }
    }

    fn is_awaiting(&self, t: u32) -> bool
        ensures { result ≡ has_awaited self.now t }
    {
        self.awaiting.contains(&t)
    }

    // What a mark does.
    fn effect(&self, mark: &Mark) -> Effect
        ensures { result ≡ effect_of (has_awaited self.now) mark.now }
    {
        match mark {
            Mark::Answered { tid, call, answer } => {
                answered_effect(self.is_awaiting(tid.0), tid.0, call, answer)
            }
            Mark::Waits { tid, call } => waits_effect(self.is_awaiting(tid.0), tid.0, call),
            Mark::Took { tid, mutex } => Effect::Takes(tid.0, i64::from(*mutex)),
            Mark::Acted {
                tid,
                act: Act::Release(m),
                answer,
            } if is_one(answer) => Effect::Gives(tid.0, *m),
            Mark::GaveMutex { tid, mutex } => Effect::GivesUp(tid.0, i64::from(*mutex)),
            Mark::GaveLock { tid, lock } => Effect::Leaves(tid.0, i64::from(*lock)),
            Mark::Ended { tid, .. } => Effect::Ends(tid.0),
            _ => Effect::Nothing,
        }
    }

    // Who has a mutex.
    fn owner(&self, i: i64) -> Option<Owner>
        ensures { result ≡ get int_cmp self.now.owners i }
    {
        self.owners.get(&i).copied()
    }

    // Who writes under a lock.
    fn writer(&self, l: i64) -> Option<u32>
        ensures { result ≡ get int_cmp self.now.writers l }
    {
        self.writers.get(&l).copied()
    }

    // How many levels of a mutex a thread has.
    fn levels(&self, t: u32, i: i64) -> u64
        ensures { result ≡ has_levels self.now t i }
    {
        levels_of(t, self.owner(i))
    }

    // No other thread has a level of a mutex.
    fn may_take(&self, t: u32, i: i64) -> bool
        ensures { Decides result ((u : ℕ) → u ≢ t → has_levels self.now u i ≡ 0) }
    {
        is_free_for(t, self.owner(i))
    }

    fn is_writer(&self, t: u32, l: i64) -> bool
        ensures { result ≡ has_written self.now t l }
    {
        is_writer(t, self.writer(l))
    }

    fn is_reader(&self, t: u32, l: i64) -> bool
        ensures { result ≡ has_read self.now t l }
    {
        self.readers.contains(&(l, t))
    }

    fn holds(&self, t: u32, l: i64) -> bool
        ensures { Decides result ((has_written self.now t l || has_read self.now t l) ≡ true) }
    {
        self.is_writer(t, l) || self.is_reader(t, l)
    }

    fn has_no_writer(&self, l: i64) -> bool
        ensures { Decides result ((u : ℕ) → has_written self.now u l ≡ false) }
    {
        is_unwritten(self.writer(l))
    }

    fn has_no_reader(&self, l: i64) -> bool
        ensures { Decides result ((u : ℕ) → has_read self.now u l ≡ false) }
    {
        !is_read(&self.readers, l)
    }

    fn has_no_level(&self, t: u32) -> bool
        ensures { Decides result ((i : ℤ) → has_levels self.now t i ≡ 0) }
    {
        !has_some(&self.owners, t)
    }

    fn writes_nowhere(&self, t: u32) -> bool
        ensures { Decides result ((l : ℤ) → has_written self.now t l ≡ false) }
    {
        !writes_some(&self.writers, t)
    }

    fn reads_nowhere(&self, t: u32) -> bool
        ensures { Decides result ((l : ℤ) → has_read self.now t l ≡ false) }
    {
        !reads_some(&self.readers, t)
    }

    // Whether a thread has no level of a mutex and holds no lock.
    fn has_nothing(&self, t: u32) -> bool
        ensures { Decides result (HasNothing self.now t) }
    {
        self.has_no_level(t) && self.holds_nowhere(t)
    }

    fn holds_nowhere(&self, t: u32) -> bool
        ensures { Decides result ((l : ℤ) → (has_written self.now t l || has_read self.now t l) ≡ false) }
    {
        self.writes_nowhere(t) && self.reads_nowhere(t)
    }

    // Whether a thread may enter a lock, to write or to read.
    fn may_enter(&self, l: i64, write: bool) -> bool
        ensures { Decides result (IsOpen self.now l write) }
    {
        if write {
            self.has_no_writer(l) && self.has_no_reader(l)
        } else {
            self.has_no_writer(l)
        }
    }

    fn has_level(&self, t: u32, i: i64) -> bool
        ensures { Decides result (0 < has_levels self.now t i) }
    {
        self.levels(t, i) > 0
    }

    // Whether the law lets an effect be done.
    fn is_fair(&self, effect: Effect) -> bool
        ensures { Decides result (IsFair self.now effect) }
    {
        match effect {
            Effect::Nothing => true,
            Effect::Takes(t, i) => self.may_take(t, i),
            Effect::Gives(t, i) => self.has_level(t, i),
            Effect::GivesUp(t, i) => self.has_level(t, i),
            Effect::Enters(_, l, write) => self.may_enter(l, write),
            Effect::Leaves(t, l) => self.holds(t, l),
            Effect::Ends(t) => self.has_nothing(t),
        }
    }

    // Whether a count can have one level more of a thread.
    fn has_count(&self, t: u32, i: i64) -> bool
        ensures { Decides result (has_levels self.now t i + 1 < 2 ^ 64) }
    {
        self.levels(t, i) < u64::MAX
    }

    // Whether a count can have the level that an effect takes.
    fn is_countable(&self, effect: Effect) -> bool
        ensures { Decides result (IsCountable self.now effect) }
    {
        match effect {
            Effect::Takes(t, i) => self.has_count(t, i),
            _ => true,
        }
    }

    // A thread takes a level of a mutex that no other one has.
    fn take(&mut self, t: u32, i: i64) -> Result<(), OutOfMemory>
        requires { IsCountable self.old (Takes t i) }
        ensures { OnOk result (IsFair self.old (Takes t i) → IsDone self.old self.new (Takes t i)) }
    {
        let levels = self.levels(t, i) + 1;
        set_levels(&mut self.owners, t, i, levels)
    }

    // A thread gives a level of a mutex back.
    fn give(&mut self, t: u32, i: i64) -> Result<(), OutOfMemory>
        ensures { OnOk result (IsFair self.old (Gives t i) → IsDone self.old self.new (Gives t i)) }
    {
        let levels = self.levels(t, i).saturating_sub(1);
        set_levels(&mut self.owners, t, i, levels)
    }

    // A thread gives a mutex up.
    fn give_up(&mut self, t: u32, i: i64) -> Result<(), OutOfMemory>
        ensures { OnOk result (IsFair self.old (GivesUp t i) → IsDone self.old self.new (GivesUp t i)) }
    {
        set_levels(&mut self.owners, t, i, 0)
    }

    // A thread enters a lock.
    fn enter(&mut self, t: u32, l: i64, write: bool) -> Result<(), OutOfMemory>
        ensures { OnOk result (IsFair self.old (Enters t l write) → IsDone self.old self.new (Enters t l write)) }
    {
        if write {
            add_writer(&mut self.writers, t, l)
        } else {
            add_reader(&mut self.readers, t, l)
        }
    }

    // A thread leaves a lock.
    fn leave(&mut self, t: u32, l: i64)
        ensures { IsDone self.old self.new (Leaves t l) }
    {
        remove_writer(&mut self.writers, t, l);
        remove_reader(&mut self.readers, t, l);
    }

    // An effect is done.
    fn carry_out(&mut self, effect: Effect) -> Result<(), OutOfMemory>
        requires { IsCountable self.old effect }
        ensures { OnOk result (IsFair self.old effect → IsDone self.old self.new effect) }
    {
        match effect {
            Effect::Nothing => Ok(()),
            Effect::Takes(t, i) => self.take(t, i),
            Effect::Gives(t, i) => self.give(t, i),
            Effect::GivesUp(t, i) => self.give_up(t, i),
            Effect::Enters(t, l, write) => self.enter(t, l, write),
            Effect::Leaves(t, l) => {
                self.leave(t, l);
                Ok(())
            }
            Effect::Ends(_) => Ok(()),
        }
    }

    /// Whether a mark keeps the law of exclusive marks, after the marks that were met.
    pub(crate) fn is_lawful(&self, mark: &Mark) -> bool
        ensures { (marks : List MarkOf) → FollowsHolds self.now marks → Decides result (IsExclusiveAt marks mark.now) }
    {
        self.is_fair(self.effect(mark))
    }

    /// Meets one more mark, which keeps the law.
    pub(crate) fn add(&mut self, mark: &Mark) -> Result<(), AuditErr>
        ensures follows { OnOk result ((marks : List MarkOf) → FollowsHolds self.old marks → IsExclusiveAt marks mark.now
            → FollowsHolds self.new (marks ++ mark.now ∷ [])) }
        ensures overflow { IsErrOf result AuditErr.Overflow → (marks : List MarkOf) → FollowsHolds self.old marks
            → 2 ^ 64 ≤ length marks + 1 }
    {
        let effect = self.effect(mark);
        if !self.is_countable(effect) {
            return Err(AuditErr::Overflow);
        }
        self.carry_out(effect)?;
        Ok(set_awaiting(&mut self.awaiting, step_of(mark))?)
    }
}
