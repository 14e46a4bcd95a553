//! Joining: `pth_join`.

ghost use Rattle.std.specs.Prelude.{◌≡◌, ℤ, false, Some, IfSome, option_map};
ghost use Rattle.pth_base.specs.declared.call.Call.TheVariants.{Join};
ghost use Rattle.pth_model.specs.Awaits.{death_of};
ghost use Rattle.pth_model.specs.State.{Control, State};
ghost use Rattle.pth_model.specs.ThreadControl.{first_of, joinable_dead, join as join_row, to_join as to_join_now, joined, join_attempt};
ghost use Rattle.pth_waits.specs.Attempts.{refused_or};
ghost use Rattle.pth_model.specs.Coming.{has_any_died, has_died as has_died_in};
ghost use Rattle.pth_base.specs.declared.answer.Answer.TheVariants.{Int};
ghost use Rattle.pth_model.specs.Changes.{removes, entry_of, or_nobody};
ghost use Rattle.pth_model.specs.declared.verdict.Verdict.TheVariants.{Says};
ghost use Rattle.pth_waits.specs.Verdicts.{TriesAgain};
ghost use Rattle.pth_world.specs.Frame.{Frame};
ghost use Rattle.pth_world.specs.Numbering.{no_numbers};
ghost use Rattle.pth_world.specs.Shows.{Shows, StandsFor};
ghost use Rattle.pth_world.specs.Sound.{IsSound, IsKnown};
ghost use Rattle.pth_world.specs.WellFormed.{WellFormed, IsIn};
ghost use Rattle.pth_threads.specs.Threads.{number_of};
ghost use Rattle.pth_queue.specs.declared.queue.Queue.TheVariants as queue;

use pth_base::answer::Answer;
use pth_base::errno::Errno;
use pth_base::ids::Tid;
use pth_base::program::Program;
use pth_model::awaits::Awaits;
use pth_model::living::is_dead;
use pth_model::verdict::Verdict;
use pth_queue::queue::Queue;
use pth_world::world::World;

fn is_joinable<P: Program>(w: &World<P>, t: Tid) -> bool
    requires sound { IsSound w.now.threads }
    requires known { IsKnown w.now.threads t.0 }
    ensures { (k : Control P P.State P.Shared) → Shows w.now k → result ≡ (or_nobody (entry_of k t.0)).joinable }
{
    match w.entry(t) {
        Some(entry) => entry.joinable,
        None => unreachable!(),
    }
}

// The thread that died first of those that can be joined.
fn first_joinable<P: Program>(w: &World<P>) -> Option<Tid>
    requires { WellFormed w.now }
    ensures first { (k : Control P P.State P.Shared) → Shows w.now k → option_map number_of result ≡ first_of (joinable_dead k) }
    ensures known { IfSome result (λ t. IsKnown w.now.threads t.0) }
    ensures dead { IfSome result (λ t. IsIn queue.Dead w.now.threads t.0) }
{
    let mut next = w.first(Queue::Dead);
    while let Some(t) = next {
        if is_joinable(w, t) {
            return Some(t);
        }
        next = w.after(t, Queue::Dead);
    }
    None
}

// Whom a join takes: the thread that is named, where it is dead, and for 0 the one that died first.
fn to_join<P: Program>(w: &World<P>, n: i64) -> Option<Tid>
    requires { WellFormed w.now }
    ensures takes { (k : Control P P.State P.Shared) → Shows w.now k → option_map number_of result ≡ to_join_now k n }
    ensures known { IfSome result (λ t. IsKnown w.now.threads t.0) }
    ensures dead { IfSome result (λ t. IsIn queue.Dead w.now.threads t.0) }
{
    if n == 0 {
        return first_joinable(w);
    }
    match w.known(n) {
        Some(it) => {
            if is_dead(it.state) {
                Some(it.tid)
            } else {
                None
            }
        }
        None => None,
    }
}

// Why a join is refused: the caller joins itself, or anyone where nobody else is there; nobody has the number; or the thread
// is not joinable.
fn refusal<P: Program>(w: &World<P>, t: Tid, n: i64) -> Option<Errno>
    requires { WellFormed w.now }
    ensures { (s : State P P.State P.Shared) → StandsFor w.now s → (join_attempt s t.0 n).verdict ≡ refused_or result (joined s.control n (to_join_now s.control n)) }
{
    if n == i64::from(t.0) {
        return Some(Errno::EDEADLK);
    }
    if n == 0 {
        return if w.present() == 1 {
            Some(Errno::EDEADLK)
        } else {
            None
        };
    }
    match w.known(n) {
        Some(it) => {
            if it.joinable {
                None
            } else {
                Some(Errno::EINVAL)
            }
        }
        None => Some(Errno::ESRCH),
    }
}

// Takes a dead thread out of the system, and gives its value.
fn take<P: Program>(w: &mut World<P>, other: Tid) -> i64
    requires whole { WellFormed w.old }
    requires known { IsKnown w.old.threads other.0 }
    requires dead { IsIn queue.Dead w.old.threads other.0 }
    ensures value { (k : Control P P.State P.Shared) (n : ℤ) → Shows w.old k → joined k n (Some other.0) ≡ Says (Int result) }
    ensures shows { (k : Control P P.State P.Shared) → Shows w.old k → Shows w.new (removes other.0 k) }
    ensures store { w.new.store ≡ w.old.store }
    ensures frame { Frame w.old w.new no_numbers w.old.scheduler.running false }
{
    let value = match w.entry(other) {
        Some(entry) => entry.value,
        None => unreachable!(),
    };
    w.remove(other);
    value
}

// What a join waits for: the death of the thread that is named, and for 0 that of any.
fn death_of(n: i64) -> Awaits
    ensures { result ≡ death_of n }
{
    if n == 0 {
        Awaits::AnyDeath
    } else {
        Awaits::Death(n)
    }
}

/// `pth_join`, as it begins and as it is tried again: it waits until the thread is dead, takes it out of the system, and is answered
/// with its value.
pub(crate) fn join<P: Program>(w: &mut World<P>, t: Tid, n: i64) -> Verdict
    requires whole { WellFormed w.old }
    requires runs { w.old.scheduler.running ≡ Some t.0 }
    ensures tries { TriesAgain w.old w.new t.0 (Join n) (λ s. join_row s t.0 n) result }
    ensures frame { Frame w.old w.new no_numbers w.old.scheduler.running false }
{
    if let Some(errno) = refusal(w, t, n) {
        return Verdict::Says(Answer::Fail(errno));
    }
    match to_join(w, n) {
        Some(other) => Verdict::Says(Answer::Int(take(w, other))),
        None => Verdict::Blocks(death_of(n)),
    }
}

/// Whether the thread that a join names has died, or can be joined no longer.
pub(crate) fn has_died<P: Program>(w: &World<P>, n: i64) -> bool
    requires { WellFormed w.now }
    ensures { (k : Control P P.State P.Shared) → Shows w.now k → result ≡ has_died_in k n }
{
    match w.known(n) {
        Some(it) => is_dead(it.state) || !it.joinable,
        None => true,
    }
}

/// Whether a thread that can be joined has died.
pub fn any_has_died<P: Program>(w: &World<P>) -> bool
    requires { WellFormed w.now }
    ensures { (k : Control P P.State P.Shared) → Shows w.now k → result ≡ has_any_died k }
{
    first_joinable(w).is_some()
}
