//! Checks.

ghost use Rattle.std.specs.Prelude.{◌≡◌};
ghost use Rattle.pth_operand.specs.Relations.{holds_between};
ghost use Rattle.pth_operand.specs.Values.{value_in};

use pth_operand::cells::Cells;
use pth_operand::operand::Value;
use pth_operand::relation::Relation;

/// What a function event asks (`PTH_EVENT_FUNC`): whether a relation holds between two numbers.
#[derive(Clone, Copy)]
pub struct Check {
    pub left: Value,
    pub relation: Relation,
    pub right: Value,
}

impl Check {
    /// Whether the check holds with this argument.
    pub(crate) fn holds(&self, cells: &Cells, arg: &i64) -> bool
        ensures { result ≡ holds_between self.now.relation (value_in cells.now arg.now self.now.left) (value_in cells.now arg.now self.now.right) }
    {
        let left = self.left.number(cells, arg);
        let right = self.right.number(cells, arg);
        self.relation.holds(left, right)
    }
}
