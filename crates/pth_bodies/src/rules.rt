//! What checks and handlers are.

ghost use Rattle.std.specs.Prelude.{◌≡◌, ◌≤◌, IsNone};
ghost use Rattle.pth_bodies.specs.Bodies.{RuleFunctions};

use crate::cells::Cells;
use pth_base::act::Act;
use pth_base::ids::{CheckId, HandlerId};

/// The checks and the handlers that thread bodies name.
///
/// Each function equals one of `rule_functions`.
pub trait Rules: Drop {
    /// The functions that the rules stand for.
    ghost rule_functions: { Self → RuleFunctions };

    /// Whether a check holds (the function of a `PTH_EVENT_FUNC`).
    fn check(&self, check: CheckId, arg: i64, cells: &Cells) -> bool
        ensures { result ≡ (rule_functions self.now).check check.0 arg cells.now };

    /// The act of a handler at an index from 0 on, and none after its last: none from 64 on. A set cell is set here.
    fn act(&self, handler: HandlerId, arg: i64, index: u32, cells: &mut Cells) -> Option<Act>
        ensures act { record { act = result; shared = cells.new } ≡ (rule_functions self.now).act handler.0 arg index cells.old }
        ensures ends { 64 ≤ index → IsNone result };
}
