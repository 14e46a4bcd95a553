//! Why a mark was not followed.

ghost use Rattle.std.specs.Prelude.{◌≡◌};

use pth_base::memory::OutOfMemory;

/// Why a mark was not followed.
#[derive(Clone, Copy)]
pub enum AuditErr {
    OutOfMemory,
    /// A count is at the last value of a `u64`: of the messages that were put, or of the levels of a mutex.
    Overflow,
}

impl From<OutOfMemory> for AuditErr {
    ghost use Rattle.pth_audit.specs.declared.error.AuditErr.TheVariants as error;

    ghost from_gives = { λ _ e. e ≡ error.OutOfMemory };

    fn from(_e: OutOfMemory) -> AuditErr {
        AuditErr::OutOfMemory
    }
}

impl From<AuditErr> for OutOfMemory {
    ghost from_gives = { λ _ e. e ≡ record {} };

    fn from(_e: AuditErr) -> OutOfMemory {
        OutOfMemory
    }
}
