//! Laws of charts.

ghost use Rattle.std.specs.Prelude.{◌≡◌, ℕ, false, List, IfSome, length, slice_get};
ghost use Rattle.std.specs.List.{All, count_by};
ghost use Rattle.pth_base.specs.declared.mark.Mark.{Mark as MarkOf};
ghost use Rattle.pth_drawing.specs.Drawing.{Row, chart, stretches_of};
ghost use Rattle.pth_drawing.specs.States.{turns_of};
ghost use Rattle.pth_drawing.specs.declared.chart.End.{End as EndOf};
ghost use Rattle.pth_drawing.specs.Tiling.{shown_at, drawn_as, LiesWithin, AreLongest, ShowsEnd};
ghost use Rattle.pth_drawing.specs.Turning.{RunsOne, IsTurn, is_dispatch};

/// There are as many turns as marks that dispatch a thread, and each is the one that its mark begins.
pub fn turns_are_told()
    ensures all { (marks : List MarkOf) → length (turns_of marks) ≡ count_by is_dispatch marks }
    ensures each { (marks : List MarkOf) (k : ℕ) → IfSome (slice_get (turns_of marks) k) (IsTurn marks k) }
{}

/// In each turn exactly one thread runs.
pub fn one_runs()
    ensures { (marks : List MarkOf) → All RunsOne (turns_of marks) }
{}

/// The stretches of a lane are the columns in which its thread is drawn: each column that is drawn is in one stretch, which is drawn as
/// that column, and no other column is in any; each stretch has a column and lies within all of them; and none goes over into the next.
pub fn stretches_tile()
    ensures tile { (row : Row) (i : ℕ) → shown_at i (stretches_of row) ≡ drawn_as (slice_get row i) }
    ensures within { (row : Row) → All (LiesWithin (length row)) (stretches_of row) }
    ensures longest { (row : Row) → AreLongest (stretches_of row) }
{}

/// If a picture is not cut, the last column of each lane shows how its thread stands after the last mark.
pub fn end_is_drawn()
    ensures { (from turns : ℕ) (last : EndOf) (marks : List MarkOf) → (chart from turns last marks).is_cut ≡ false
        → ShowsEnd marks (chart from turns last marks) }
{}
