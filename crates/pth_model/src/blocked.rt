//! A call that blocks its thread.

ghost use Rattle.std.specs.Prelude.{◌≡◌};
ghost use Rattle.pth_model.specs.RingWaits.{ring_held};

use crate::awaits::{Awaited, Awaits, ring_given};
use pth_base::call::Call;

/// A call that blocks its thread, and what the thread waits for.
pub struct Blocked {
    pub call: Call,
    pub awaits: Awaits,
}

// By hand, so that letting one go is one call in each proof.
impl Drop for Blocked {
    fn drop(self) {
        let Blocked { call: _, awaits: _ } = self;
    }
}

/// The event that was given to the call that blocks a thread, if any, and whose ring it claims.
pub fn ring_held(blocked: &Option<Blocked>) -> Option<i64>
    ensures { result ≡ ring_held blocked.now }
{
    match blocked {
        Some(blocked) => blocked.ring(),
        None => None,
    }
}

impl Blocked {
    ghost use Rattle.std.specs.Prelude.{◌≡◌, Some};
    ghost use Rattle.pth_model.specs.RingWaits.{awaited_in, ring_held};

    /// The event that the call was given, whose ring it claims; none once a wait at a condition is over.
    pub fn ring(&self) -> Option<i64>
        ensures { result ≡ ring_held (Some self.now) }
    {
        if self.awaits.is_retaking() {
            return None;
        }
        ring_given(&self.call)
    }

    /// What the thread waits for, and the ring that its call claims.
    pub fn awaited(&self) -> Awaited
        ensures { result ≡ awaited_in (Some self.now) }
    {
        Awaited {
            what: self.awaits,
            ring: self.ring(),
        }
    }
}
