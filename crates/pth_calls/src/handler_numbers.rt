//! Handlers as operands of calls name them.

ghost use Rattle.std.specs.Prelude.{◌≡◌};
ghost use Rattle.pth_model.specs.Resources.{handler as handler_named, destructor_by};

use pth_base::ids::HandlerId;

/// The handler that an operand names. A number that no handler can have stands for the last one, 4,294,967,295, which has no acts.
pub(crate) fn handler_named(n: i64) -> HandlerId
    ensures { result ≡ handler_named n }
{
    HandlerId(u32::try_from(n).unwrap_or(u32::MAX))
}

/// The destructor that `pth_key_create` is given, or none.
pub(crate) fn destructor_named(n: Option<i64>) -> Option<HandlerId>
    ensures { result ≡ destructor_by n }
{
    n.map(handler_named)
}
