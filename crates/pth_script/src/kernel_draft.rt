//! A kernel that is being read.

ghost use Rattle.std.specs.Prelude.{◌≡◌, ◌≤◌, ◌<◌, ◌+◌, ◌^◌, ◌++◌, ◌∷◌, [], reverse, None, IfOk, OnOk, false, unwrap_or};
ghost use Rattle.pth_base.specs.Descriptors.{descriptor_limit};
ghost use Rattle.pth_kernel.specs.Kernel.{kernel_of, started};
ghost use Rattle.pth_kernel.specs.Trace.{faults, is_full_of_stamps};
ghost use Rattle.pth_script.specs.KernelDrafts.{IsKernelInOrder};

use pth_base::ids::{FdSet, Micros};
use pth_base::memory::OutOfMemory;
use pth_kernel::kernel::Kernel;
use pth_kernel::rules::Rules;
use pth_kernel::trace::{Stamp, Trace};
use std::alloc::Global;

/// What the lines of a kernel say.
#[derive(Drop)]
pub struct KernelDraft {
    /// How many microseconds a turn takes, once a line says it.
    pub clock: Option<Micros>,
    /// The least number that the next `open` may have, up to 64.
    pub next_open: u8,
    /// The descriptors that are open from the start.
    pub live: FdSet,
    /// What comes.
    pub trace: Trace,
    /// The rules of what comes next.
    pub rules: Rules,
}

impl KernelDraft {
    /// Nothing said yet, which takes no memory.
    pub fn new(alloc: Global) -> KernelDraft
        ensures clock { result.clock ≡ None }
        ensures next_open { result.next_open ≡ 0 }
        ensures live { result.live.0 ≡ 0 }
        ensures trace { result.trace ≡ [] }
        ensures kept { IsKernelInOrder result }
    {
        let live = FdSet(0);
        KernelDraft {
            clock: None,
            next_open: 0,
            live,
            trace: Trace::new(alloc),
            rules: Rules::new(live),
        }
    }

    /// Whether as much came as may come.
    pub fn is_full(&self) -> bool
        requires { IsKernelInOrder self.now }
        ensures { result ≡ is_full_of_stamps (reverse self.now.trace) }
    {
        self.rules.is_full()
    }

    /// Opens a descriptor, before anything comes.
    pub fn open(&mut self, f: u8)
        requires within { f < descriptor_limit }
        requires rises { self.old.next_open ≤ f }
        requires nothing { self.old.trace ≡ [] }
        requires kept { IsKernelInOrder self.old }
        ensures opened { self.new ≡ record self.old { next_open = f + 1; live = record { 0 = self.old.live.0 + 2 ^ f }; rules = self.new.rules } }
        ensures kept { IsKernelInOrder self.new }
    {
        self.live = FdSet(self.live.0 + (1 << f));
        self.next_open = f + 1;
        self.rules = Rules::new(self.live);
    }

    /// Takes what comes next, which breaks no rule of a trace.
    pub fn take_stamp(&mut self, stamp: Stamp) -> Result<(), OutOfMemory>
        requires fine { faults self.old.live.0 (reverse self.old.trace) stamp ≡ false }
        requires kept { IsKernelInOrder self.old }
        ensures taken { OnOk result (self.new ≡ record self.old { trace = self.old.trace ++ stamp ∷ []; rules = self.new.rules }) }
        ensures kept { OnOk result (IsKernelInOrder self.new) }
    {
        self.trace.add(&mut self.rules, stamp)
    }

    /// The kernel that was read. A turn takes 1 microsecond if no line says how many.
    pub fn close(self, alloc: Global) -> Result<Kernel, OutOfMemory>
        requires { IsKernelInOrder self }
        ensures { IfOk result (λ k. kernel_of k ≡ started (unwrap_or self.clock 1) self.live.0 self.trace) }
    {
        Kernel::new(alloc, self.clock.unwrap_or(1), self.live, self.trace)
    }
}
