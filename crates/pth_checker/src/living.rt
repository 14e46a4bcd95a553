//! Follows a list of marks, and says of an ending whether it fits them.

ghost use Rattle.std.specs.Prelude.{◌≡◌, ◌==◌, ◌&&◌, ◌||◌, ◌∷◌, ◌++◌, ◌↔◌, ◌<◌, [], ℕ, List, IfOk, OnOk, IsTrue, true, false, not, length, pos, slice_index, slice_index_or};
ghost use Rattle.pth_base.specs.declared.answer.Answer.TheVariants as answer;
ghost use Rattle.pth_base.specs.declared.call.Call.TheVariants as call;
ghost use Rattle.pth_base.specs.declared.ids.Tid.{Tid as TidOf};
ghost use Rattle.pth_base.specs.declared.mark.Mark.{Mark as MarkOf};
ghost use Rattle.pth_base.specs.declared.mark.Mark.TheVariants as mark;
ghost use Rattle.pth_laws.specs.Marks.{is_end_of};
ghost use Rattle.pth_checker.specs.Fitting.{AreTheLiving, FitsEnding, main, numbers};
ghost use Rattle.pth_transcript.specs.Threads.{is_spawn_of};
ghost use Rattle.pth_checker.specs.Following.{FollowsLiving, has, is_number_of};

use pth_base::answer::Answer;
use pth_base::call::Call;
use pth_base::ids::{MAIN, Tid};
use pth_base::mark::Mark;
use pth_base::memory::OutOfMemory;
use pth_transcript::ending::Ending;
use std::alloc::Global;
use std::collections::BTreeSet;

/// The threads that are alive, those that have ended, and the last mark.
#[derive(Drop)]
pub(crate) struct Living {
    alive: BTreeSet<u64>,
    ended: BTreeSet<u64>,
    last: Option<Mark>,
}

impl Living {
    /// There is no mark, and main alone is alive.
    pub(crate) fn new(alloc: Global) -> Result<Living, OutOfMemory>
        ensures { IfOk result (λ l. FollowsLiving l []) }
    {
        let mut alive = BTreeSet::new(alloc);
        let _new = alive.insert(u64::from(MAIN))?;
        Ok(Living {
            alive,
            ended: BTreeSet::new(alloc),
            last: None,
        })
    }

    // A spawn answered a number.
    fn make(&mut self, number: i64) -> Result<(), OutOfMemory>
        ensures alive { OnOk result ((t : ℕ) → has self.new.alive t
            ≡ (has self.old.alive t || (is_number_of t number && not (has self.old.ended t)))) }
        ensures ended { self.new.ended ≡ self.old.ended }
    {
        let Ok(t) = u64::try_from(number) else {
            return Ok(());
        };
        if !self.ended.contains(&t) {
            let _new = self.alive.insert(t)?;
        }
        Ok(())
    }

    // A thread ended.
    fn end(&mut self, t: Tid) -> Result<(), OutOfMemory>
        ensures alive { OnOk result ((u : ℕ) → has self.new.alive u ≡ (has self.old.alive u && not (t.0 == u))) }
        ensures ended { OnOk result ((u : ℕ) → has self.new.ended u ≡ (has self.old.ended u || (t.0 == u))) }
    {
        let t = u64::from(t.0);
        let _new = self.ended.insert(t)?;
        let _was = self.alive.remove(&t);
        Ok(())
    }

    // Who is alive and who has ended after a mark.
    fn count(&mut self, mark: &Mark) -> Result<(), OutOfMemory>
        ensures alive { OnOk result ((t : ℕ) → has self.new.alive t
            ≡ ((has self.old.alive t || (is_spawn_of t mark.now && not (has self.old.ended t))) && not (is_end_of t mark.now))) }
        ensures ended { OnOk result ((t : ℕ) → has self.new.ended t ≡ (has self.old.ended t || is_end_of t mark.now)) }
    {
        match mark {
            Mark::Answered {
                call: Call::Spawn { .. },
                answer: Answer::Int(number),
                ..
            } => self.make(*number),
            Mark::Ended { tid, .. } => self.end(*tid),
            _ => Ok(()),
        }
    }

    /// There is a mark more.
    pub(crate) fn add(&mut self, mark: Mark) -> Result<(), OutOfMemory>
        ensures { OnOk result ((marks : List MarkOf) → FollowsLiving self.old marks → FollowsLiving self.new (marks ++ mark ∷ [])) }
    {
        self.count(&mark)?;
        self.last = Some(mark);
        Ok(())
    }

    // Whether main has just ended with a value.
    fn has_main_ended(&self, v: i64) -> bool
        ensures { IsTrue result ↔ self.now.last ≡ Some (mark.Ended main v) }
    {
        match &self.last {
            Some(
                Mark::Ended {
                    tid: Tid(MAIN),
                    value,
                },
            ) => *value == v,
            _ => false,
        }
    }

    // Whether main has just ended the run by `pth_kill`.
    fn was_killed(&self) -> bool
        ensures { IsTrue result ↔ self.now.last ≡ Some (mark.Answered main call.Kill (answer.Int (pos 1))) }
    {
        matches!(
            &self.last,
            Some(Mark::Answered {
                tid: Tid(MAIN),
                call: Call::Kill,
                answer: Answer::Int(1),
            })
        )
    }

    // Whether these are the threads that are alive, in rising order.
    fn are_alive(&self, threads: &[Tid]) -> bool
        ensures { (marks : List MarkOf) → FollowsLiving self.now marks
            → IsTrue result ↔ AreTheLiving marks (numbers threads.now) }
    {
        if self.alive.len() != threads.len() {
            return false;
        }
        are_numbers_of(&self.alive, threads)
    }

    /// Whether an ending fits the marks so far.
    pub(crate) fn fits(&self, ending: &Ending) -> bool
        ensures { (marks : List MarkOf) → FollowsLiving self.now marks → IsTrue result ↔ FitsEnding marks ending.now }
    {
        match ending {
            Ending::Ended(v) => self.has_main_ended(*v),
            Ending::Killed => self.was_killed(),
            Ending::Stalled(live) => self.are_alive(live),
            Ending::StepLimit(_) => true,
        }
    }
}

// Whether so many numbers as threads are the numbers of these, one by one.
fn are_numbers_of(found: &BTreeSet<u64>, threads: &[Tid]) -> bool
    requires { length found.now.keys ≡ length threads.now }
    ensures yes { result ≡ true → (k : ℕ) → k < length found.now.keys → (d : TidOf)
        → slice_index found.now.keys k ≡ (slice_index_or threads.now k d).0 }
    ensures no { result ≡ false → found.now.keys ≡ numbers threads.now → ⊥ }
{
    found
        .iter()
        .zip(threads)
        .all(|(number, t)| *number == u64::from(t.0))
}
