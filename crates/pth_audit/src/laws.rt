//! Laws of verdicts.

ghost use Rattle.std.specs.Prelude.{◌≡◌, ◌↔◌, ℕ, List};
ghost use Rattle.pth_audit.specs.Verdicts.{IsLawful, IsVerdict};
ghost use Rattle.pth_audit.specs.declared.verdict.Verdict.{Verdict as VerdictOf};
ghost use Rattle.pth_audit.specs.declared.verdict.Verdict.TheVariants.{Yes};
ghost use Rattle.pth_base.specs.declared.mark.Mark.{Mark as MarkOf};
ghost use Rattle.pth_model.specs.Run.{run};
ghost use Rattle.pth_model.specs.State.{Given};

use pth_base::program::Program;

/// A list of marks has at most one verdict, and it is Yes exactly if the marks meet all four laws.
pub fn verdict_is_one()
    ensures one { (marks : List MarkOf) (v w : VerdictOf) → IsVerdict marks v → IsVerdict marks w → v ≡ w }
    ensures yes { (marks : List MarkOf) → IsVerdict marks Yes ↔ IsLawful marks }
{}

/// No verdict but Yes fits the marks of a run, wherever it stands.
pub fn every_run_passes<P: Program>()
    ensures { (g : Given P) (i : ℕ) (v : VerdictOf) → IsVerdict (run P.functions g i).marks v → v ≡ Yes }
{}
