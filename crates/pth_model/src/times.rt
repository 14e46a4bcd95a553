//! Moments and lengths of time.

ghost use Rattle.std.specs.Prelude.{◌≡◌};
ghost use Rattle.pth_model.specs.Times.{length_of, moment_of as moment_of_operand, moment_after as later_moment};

use pth_base::ids::Micros;
use pth_base::limits::LAST_MOMENT;

/// A longer time counts as this one.
pub const LONGEST_TIME: Micros = 1_000_000_000_000_000;

/// The length that an operand gives in microseconds: 0 for a negative one.
pub fn micros(n: i64) -> Micros
    ensures { result ≡ length_of 1 n }
{
    (n.max(0) as u64).min(LONGEST_TIME)
}

/// The length that an operand gives in seconds: 0 for a negative one.
pub fn seconds(n: i64) -> Micros
    ensures { result ≡ length_of 1000000 n }
{
    (n.max(0) as u64)
        .saturating_mul(1_000_000)
        .min(LONGEST_TIME)
}

/// The moment that an operand gives.
pub fn moment_of(n: i64) -> Micros
    ensures { result ≡ moment_of_operand n }
{
    (n.max(0) as u64).min(LAST_MOMENT)
}

/// The moment that lies a length of time after another.
pub fn moment_after(now: Micros, length: Micros) -> Micros
    ensures { result ≡ later_moment now length }
{
    now.saturating_add(length).min(LAST_MOMENT)
}
