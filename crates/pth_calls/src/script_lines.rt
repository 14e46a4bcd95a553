//! The lines of a body that call nothing.

ghost use Rattle.std.specs.Prelude.{◌≡◌, IfOk, OnOk, OnErr, ◌++◌, [], ◌∷◌};
ghost use Rattle.pth_base.specs.declared.mark.Mark.TheVariants.{Noted};

use pth_base::ids::Tid;
use pth_base::mark::Mark;
use pth_base::marks::Marks;
use pth_base::memory::OutOfMemory;

/// Tells a note.
pub fn note(t: Tid, value: i64, marks: &mut Marks) -> Result<(), OutOfMemory>
    ensures ok { OnOk result (marks.new ≡ marks.old ++ Noted t value ∷ []) }
    ensures err { OnErr result (marks.new ≡ marks.old) }
{
    marks.push(Mark::Noted { tid: t, value })
}
