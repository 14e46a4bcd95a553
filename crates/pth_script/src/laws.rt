//! Laws of every text.

ghost use Rattle.std.specs.Prelude.{◌≡◌, ◌⊎◌, ℕ, List};
ghost use Rattle.pth_line.specs.Script.{Sections};
ghost use Rattle.pth_script.specs.Broken.{IsAccepted, IsRefusal};
ghost use Rattle.pth_kernel.specs.Kernel.{Kernel};
ghost use Rattle.pth_script.specs.Meaning.{IsScriptOf, IsKernelOf, IsTopOf};
ghost use Rattle.pth_text.specs.declared.rule.Breach.{Breach as BreachOf};

/// Every text is a script's, with a kernel and a greatest base priority, or is refused, and not both. It stands for at most one script,
/// for at most one kernel and for one such priority, and has at most one refusal.
pub fn every_text_has_one_meaning()
    ensures some { (text : List ℕ) →
        ((script : Sections) × (kernel : Kernel) × (top : ℕ) × IsAccepted text
        × IsScriptOf script text × IsKernelOf kernel text × IsTopOf top text)
        ⊎ ((line : ℕ) × (b : BreachOf) × IsRefusal text line b) }
    ensures not_both { (text : List ℕ) (line : ℕ) (b : BreachOf) → IsAccepted text → IsRefusal text line b → ⊥ }
    ensures one_script { (text : List ℕ) (s t : Sections) → IsScriptOf s text → IsScriptOf t text → s ≡ t }
    ensures one_kernel { (text : List ℕ) (k l : Kernel) → IsKernelOf k text → IsKernelOf l text → k ≡ l }
    ensures one_top { (text : List ℕ) (m n : ℕ) → IsTopOf m text → IsTopOf n text → m ≡ n }
    ensures one_refusal { (text : List ℕ) (i j : ℕ) (b c : BreachOf) → IsRefusal text i b → IsRefusal text j c → (i ≡ j) × (b ≡ c) }
{}
