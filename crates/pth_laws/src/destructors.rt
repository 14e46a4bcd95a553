//! Which destructor is due next.

ghost use Rattle.std.specs.Prelude.{◌≡◌, ℕ, Some, None};
ghost use Rattle.pth_laws.specs.Destructors.{IsNextDue, IsNoneDue};
ghost use Rattle.pth_model.specs.Ending.{next_destructor};
ghost use Rattle.pth_model.specs.declared.destructors.Due.{Due};
ghost use Rattle.pth_model.specs.declared.destructors.DestructorRound.{DestructorRound};
ghost use Rattle.pth_store.specs.Keys.{Tables};

/// The destructor that is due next, as endings and the laws on them have it, is that of the least key behind the last one in this
/// round whose destructor is owed a value; if there is none, that of the least such key of all, in one more round, if fewer than
/// four began; and else there is none (`pth_key_create`, `PTH_DESTRUCTOR_ITERATIONS`).
pub fn destructors_are_due()
    ensures next { (x : Tables) (t : ℕ) (r : DestructorRound) (d : Due) → next_destructor x t r ≡ Some d → IsNextDue x t r d }
    ensures none { (x : Tables) (t : ℕ) (r : DestructorRound) → next_destructor x t r ≡ None → IsNoneDue x t r }
{}
