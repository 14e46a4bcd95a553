//! Runs of scripts to which lines are added.

ghost use Rattle.std.specs.Prelude.{ℕ, List};
ghost use Rattle.pth_line.specs.Script.{Sections};
ghost use Rattle.pth_line.specs.declared.line.Line.{Line};
ghost use Rattle.pth_model.specs.State.{Given};
ghost use Rattle.pth_agreement.specs.Scripts.{NeverAtEndUpTo, given_longer, AgreesWithLines};

/// If no thread makes a step at the end of a body before part i, then the run of the script with further lines at the end of that body
/// agrees with the run up to part i, in all but the script: in the state, in the turn and in the marks. Then further lines may be added again,
/// at the end of this body or of another one.
pub fn longer_scripts_agree()
    ensures agrees { (b : ℕ) (lines : List Line) (g : Given Sections) (i : ℕ) → NeverAtEndUpTo b g i
        → AgreesWithLines b lines g i }
    ensures again { (b c : ℕ) (lines : List Line) (g : Given Sections) (i : ℕ) → NeverAtEndUpTo b g i
        → NeverAtEndUpTo c g i → NeverAtEndUpTo c (given_longer b lines g) i }
{}
