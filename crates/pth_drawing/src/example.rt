//! Charts that the definitions alone compute.

ghost use Rattle.std.specs.Prelude.{◌≡◌};
ghost use Rattle.pth_drawing.specs.Drawing.{chart};
ghost use Rattle.pth_drawing.specs.declared.chart.End.TheVariants.{Stalled};
ghost use Rattle.pth_drawing.specs.Example.{its_marks, whole_chart, second_column};

/// By the definitions, a run in which main spawns a thread and joins it has exactly this chart, and its second turn this one.
pub fn joining_run_is_drawn()
    ensures whole { chart 1 400 Stalled its_marks ≡ whole_chart }
    ensures second { chart 2 1 Stalled its_marks ≡ second_column }
{}
