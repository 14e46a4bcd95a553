//! Numbers of lines.

ghost use Rattle.std.specs.Prelude.{◌≡◌, ◌++◌, IfOk, codes, map};
ghost use Rattle.std.specs.Fmt.{signed_decimal};
ghost use Rattle.pth_threads.specs.Attributes.{flag};
ghost use Rattle.pth_snapshot.specs.Dump.{numbers};
ghost use Rattle.pth_snapshot.specs.Numbers.{number_of};

use pth_base::memory::OutOfMemory;
use pth_text::text::Text;

/// A number as it stands in a line.
#[derive(Clone, Copy)]
pub enum Number {
    Natural(u64),
    Signed(i64),
}

impl Number {
    /// 1 or 0.
    pub fn flag(on: bool) -> Number
        ensures { number_of result ≡ flag on }
    {
        Number::Natural(u64::from(on))
    }

    // Adds it after a space.
    fn add(self, out: &mut Text) -> Result<(), OutOfMemory>
        ensures { IfOk result (λ _. out.new ≡ out.old ++ codes " " ++ signed_decimal (number_of self)) }
    {
        out.push(b" ")?;
        match self {
            Number::Natural(n) => out.natural(n),
            Number::Signed(n) => out.number(n),
        }
    }
}

/// Adds numbers, each after a space.
pub fn add_numbers(list: &[Number], out: &mut Text) -> Result<(), OutOfMemory>
    ensures { IfOk result (λ _. out.new ≡ out.old ++ numbers (map number_of list.now)) }
{
    for n in list {
        n.add(out)?;
    }
    Ok(())
}
