//! The two lines of a body that are no calls of Pth.

ghost use Rattle.std.specs.Prelude.{ℕ, ℤ};
ghost use Rattle.pth_base.specs.declared.call.Call.TheVariants as call;
ghost use Rattle.pth_model.specs.State.{State};
ghost use Rattle.pth_sheet.specs.Outcomes.{Begins, marks_nothing, notes};

use pth_base::program::Program;

/// A plain line changes nothing, and marks nothing.
pub fn plain<P: Program>()
    ensures { (s : State P P.State P.Shared) (t : ℕ) →
        Begins P.functions s t call.Plain (marks_nothing) }
{}

/// A note is marked with its value, and changes nothing.
pub fn note<P: Program>()
    ensures { (s : State P P.State P.Shared) (t : ℕ) (v : ℤ) →
        Begins P.functions s t (call.Note v) (notes v) }
{}
