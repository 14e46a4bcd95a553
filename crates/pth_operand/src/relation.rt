//! How two numbers are compared.

ghost use Rattle.std.specs.Prelude.{◌≡◌};
ghost use Rattle.pth_operand.specs.Relations.{holds_between};

/// A relation between two numbers.
#[derive(Clone, Copy)]
pub enum Relation {
    Eq,
    Ne,
    Lt,
    Le,
    Gt,
    Ge,
}

impl Relation {
    /// Whether it holds between two numbers.
    pub fn holds(&self, a: i64, b: i64) -> bool
        ensures { result ≡ holds_between self.now a b }
    {
        match self {
            Relation::Eq => a == b,
            Relation::Ne => a != b,
            Relation::Lt => a < b,
            Relation::Le => a <= b,
            Relation::Gt => a > b,
            Relation::Ge => a >= b,
        }
    }
}
