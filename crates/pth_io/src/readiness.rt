//! What `pth_select` asks of a descriptor, and the members of a set for which it holds.

ghost use Rattle.std.specs.Prelude.{◌≡◌, ◌≤◌, ◌<◌, ◌+◌, ◌^◌};
ghost use Rattle.pth_io.specs.Attempts.{those};
ghost use Rattle.pth_io.specs.Readiness.{is_ready, IsFound};
ghost use Rattle.pth_kernel.specs.Kernel.{kernel_of};

use pth_base::ids::FdSet;
use pth_kernel::kernel::Kernel;

// What the members of a set wait for.
#[derive(Clone, Copy)]
pub(crate) enum Readiness {
    Readable,
    Writeable,
    Exceptional,
}

impl Readiness {
    // Whether a descriptor is so.
    fn holds(self, k: &Kernel, f: u8) -> bool
        ensures { result ≡ is_ready self (kernel_of k.now) f }
    {
        let f = i64::from(f);
        match self {
            Readiness::Readable => k.readable(f),
            Readiness::Writeable => k.writeable(f),
            Readiness::Exceptional => k.exceptional(f),
        }
    }

    // Those members of a set that are so.
    pub(crate) fn of(self, k: &Kernel, set: FdSet) -> Found
        ensures { IsFound result (those (kernel_of k.now) (is_ready self (kernel_of k.now)) set.0) }
    {
        let mut found = Found::NONE;
        for f in 0..set.end() {
            if set.contains(f) && self.holds(k, f) {
                found.add(f);
            }
        }
        found
    }
}

// Members of a set, and how many they are.
#[derive(Clone, Copy)]
pub(crate) struct Found {
    pub(crate) set: FdSet,
    pub(crate) count: u8,
}

impl Found {
    pub(crate) const NONE: Found = Found {
        set: FdSet(0),
        count: 0,
    };

    // One more, which is above the others.
    fn add(&mut self, f: u8)
        requires low { f < 64 }
        requires below { self.old.set.0 < 2 ^ f }
        requires few { self.old.count ≤ f }
        ensures set { self.new.set.0 ≡ self.old.set.0 + 2 ^ f }
        ensures count { self.new.count ≡ self.old.count + 1 }
    {
        self.set.0 += 1 << f;
        self.count += 1;
    }
}
