//! How far threads are in their programs.

ghost use Rattle.std.specs.Prelude.{◌≡◌, ◌<◌, ℕ, Option, Some, None, IsSome, IfSome, IfOk, OnOk, option_copied, length};
ghost use Rattle.pth_base.specs.Limits.{thread_limit};
ghost use Rattle.pth_base.specs.Table.{table};
ghost use Rattle.pth_model.specs.State.{Control};
ghost use Rattle.pth_model.specs.Changes.{is_blocked_by, owes, blocked_of};
ghost use Rattle.pth_model.specs.RingWaits.{awaited_in, stops_waiting};
ghost use Rattle.pth_model.specs.Part.{step_of, stepping};
ghost use Rattle.pth_world.specs.Shows.{Shows};
ghost use Rattle.pth_world.specs.Sound.{IsSound, IsKnown};
ghost use Rattle.pth_world.specs.WellFormed.{WellFormed, WellFormedBut, MayBlock, MayAwait};
ghost use Rattle.pth_world.specs.Touches.{Touches, view_blocked, same_view};
ghost use Rattle.pth_tables.specs.StepsAt.{StepsAt};

use crate::world::World;
use pth_base::answer::Answer;
use pth_base::call::Call;
use pth_base::ids::{Slot, Tid};
use pth_base::memory::OutOfMemory;
use pth_base::program::Program;
use pth_model::awaits::Awaited;
use pth_model::blocked::{Blocked, ring_held};
use pth_tables::progress_table::step_at;

impl<P: Program> World<P> {
    /// Sets the call that blocks a thread.
    pub fn block(&mut self, t: Tid, b: Blocked)
        requires sound { IsSound self.old.threads }
        requires known { IsKnown self.old.threads t.0 }
        ensures shows { (k : Control P P.State P.Shared) → Shows self.old k → Shows self.new (is_blocked_by t.0 (Some b) k) }
        ensures sound { IsSound self.new.threads }
        ensures touches { Touches self.old.threads self.new.threads t.0 (view_blocked (Some b)) }
        ensures but { WellFormedBut self.old t.0 → WellFormedBut self.new t.0 }
        ensures whole { WellFormed self.old → MayBlock t.0 b → WellFormed self.new }
        ensures same { self.new ≡ record self.old { threads = record self.old.threads { progress = self.new.threads.progress } } }
    {
        let slot = self.slot(t);
        self.progress_mut().block(slot, b);
    }

    /// Takes out the call that blocks a thread, and leaves its claim; none where no call does.
    pub fn take_blocked(&mut self, t: Tid) -> Option<Blocked>
        requires sound { IsSound self.old.threads }
        requires known { IsKnown self.old.threads t.0 }
        ensures blocked { (k : Control P P.State P.Shared) → Shows self.old k → result ≡ blocked_of k t.0 }
        ensures shows { (k : Control P P.State P.Shared) → Shows self.old k → Shows self.new (is_blocked_by t.0 None k) }
        ensures sound { IsSound self.new.threads }
        ensures touches { Touches self.old.threads self.new.threads t.0 (view_blocked None) }
        ensures but { WellFormedBut self.old t.0 → WellFormedBut self.new t.0 }
        ensures whole { WellFormed self.old → WellFormed self.new }
        ensures same { self.new ≡ record self.old { threads = record self.old.threads { progress = self.new.threads.progress } } }
    {
        let slot = self.slot(t);
        self.progress_mut().unblock(slot)
    }

    /// No call blocks a thread any longer: the one that did, whose claim is given back; none where no call did.
    pub fn unblock(&mut self, t: Tid) -> Option<Blocked>
        requires sound { IsSound self.old.threads }
        requires known { IsKnown self.old.threads t.0 }
        ensures blocked { (k : Control P P.State P.Shared) → Shows self.old k → result ≡ blocked_of k t.0 }
        ensures shows { (k : Control P P.State P.Shared) → Shows self.old k → Shows self.new (stops_waiting t.0 k) }
        ensures sound { IsSound self.new.threads }
        ensures touches { Touches self.old.threads self.new.threads t.0 (view_blocked None) }
        ensures but { WellFormedBut self.old t.0 → WellFormedBut self.new t.0 }
        ensures whole { WellFormed self.old → WellFormed self.new }
        ensures made { self.new.events.made ≡ self.old.events.made }
        ensures same { self.new ≡ record self.old { threads = record self.old.threads { progress = self.new.threads.progress }; events = self.new.events; conditions = self.new.conditions } }
    {
        let blocked = self.take_blocked(t);
        self.give_back(ring_held(&blocked));
        blocked
    }

    /// Sets the answer that is handed over to a thread in its next step.
    #[inline(always)]
    pub fn owe(&mut self, t: Tid, a: Answer)
        requires sound { IsSound self.old.threads }
        requires known { IsKnown self.old.threads t.0 }
        ensures shows { (k : Control P P.State P.Shared) → Shows self.old k → Shows self.new (owes t.0 a k) }
        ensures sound { IsSound self.new.threads }
        ensures touches { Touches self.old.threads self.new.threads t.0 same_view }
        ensures but { WellFormedBut self.old t.0 → WellFormedBut self.new t.0 }
        ensures whole { WellFormed self.old → WellFormed self.new }
        ensures same { self.new ≡ record self.old { threads = record self.old.threads { progress = self.new.threads.progress } } }
    {
        let slot = self.slot(t);
        self.progress_mut().owe(slot, a);
    }

    /// The call that blocks a thread; none where no call does.
    #[inline(always)]
    pub fn blocked(&self, t: Tid) -> Option<&Blocked>
        requires { IsSound self.now.threads }
        ensures blocked { (k : Control P P.State P.Shared) → Shows self.now k → option_copied result ≡ blocked_of k t.0 }
        ensures may { WellFormed self.now → IfSome (option_copied result) (λ b. MayBlock t.0 b) }
    {
        match self.threads().find(t) {
            Some(slot) => match self.progress().get(slot) {
                Some(p) => p.blocked.as_ref(),
                None => None,
            },
            None => None,
        }
    }

    /// What the call that blocks a thread waits for: nothing where no call does. It reads no call.
    pub fn awaited(&self, t: Tid) -> Awaited
        requires { IsSound self.now.threads }
        ensures awaited { (k : Control P P.State P.Shared) → Shows self.now k → result ≡ awaited_in (blocked_of k t.0) }
        ensures may { WellFormed self.now → MayAwait result.what }
    {
        match self.threads().find(t) {
            Some(slot) => self.progress().awaited(slot),
            None => Awaited::NOTHING,
        }
    }

    // The program's step at the state of the thread at a slot.
    fn step(&mut self, slot: Slot, answer: &Answer) -> Result<Call, OutOfMemory>
        requires low { slot.0 < thread_limit }
        requires some { IsSome (table None self.old.threads.progress slot.0) }
        ensures step { IfOk result (λ call. StepsAt (P.functions self.old.program) slot.0 (table None self.old.threads.progress) (table None self.new.threads.progress) self.old.shared self.new.shared answer.now call) }
        ensures long { length self.new.threads.progress ≡ thread_limit }
        ensures same { OnOk result (self.new ≡ record self.old { threads = record self.old.threads { progress = self.new.threads.progress }; shared = self.new.shared }) }
    {
        step_at(
            &self.program,
            self.alloc,
            &mut self.progress,
            slot,
            &mut self.shared,
            answer,
        )
    }

    /// The program's next call of a thread, which is handed over the answer that it is owed. After an error the world may
    /// only be dropped.
    pub fn next_call(&mut self, t: Tid) -> Result<Call, OutOfMemory>
        requires sound { IsSound self.old.threads }
        requires known { IsKnown self.old.threads t.0 }
        ensures call { IfOk result (λ call. (k : Control P P.State P.Shared) → Shows self.old k → IfSome (k.threads.progress t.0) (λ p. call ≡ (step_of P.functions k p).call)) }
        ensures shows { OnOk result ((k : Control P P.State P.Shared) → Shows self.old k → IfSome (k.threads.progress t.0) (λ p. Shows self.new (stepping t.0 (step_of P.functions k p) k))) }
        ensures some { (k : Control P P.State P.Shared) → Shows self.old k → IsSome (k.threads.progress t.0) }
        ensures sound { OnOk result (IsSound self.new.threads) }
        ensures touches { OnOk result (Touches self.old.threads self.new.threads t.0 same_view) }
        ensures but { OnOk result (WellFormedBut self.old t.0 → WellFormedBut self.new t.0) }
        ensures whole { OnOk result (WellFormed self.old → WellFormed self.new) }
        ensures same { OnOk result (self.new ≡ record self.old { threads = record self.old.threads { progress = self.new.threads.progress }; shared = self.new.shared }) }
    {
        let slot = self.slot(t);
        let answer = self.progress_mut().take_owed(slot);
        self.step(slot, &answer)
    }
}
