//! Key-Based Storage of pth(3): `pth_key_create` to `pth_key_getdata`.

ghost use Rattle.std.specs.Prelude.{ℕ, Option, ℤ, ◌≡◌, None, Some, not};
ghost use Rattle.pth_base.specs.declared.answer.Answer.TheVariants.{Int};
ghost use Rattle.pth_base.specs.declared.call.Call.TheVariants as call;
ghost use Rattle.pth_base.specs.declared.errno.Errno.TheVariants.{EAGAIN, ENOENT};
ghost use Rattle.pth_store.specs.Keys.{free_key, created, is_key, key_named, deleted, with_key_value};
ghost use Rattle.pth_model.specs.Resources.{destructor_by};
ghost use Rattle.pth_model.specs.State.{State};
ghost use Rattle.pth_sheet.specs.Outcomes.{Begins, refused, ◌then◌, returns, answers};
ghost use Rattle.pth_numbered.specs.Clauses.{◌when◌otherwise◌};
ghost use Rattle.pth_sheet.specs.States.{keys_of, keys_become};

use pth_base::program::Program;

/// This creates a new unique key and returns it. Additionally `h` can specify a destructor function which is called on the current thread's
/// termination with the key. Here it is the least free key, and there are at most 256.
pub fn pth_key_create<P: Program>()
    ensures no_key_free { (s : State P P.State P.Shared) (t : ℕ) (h : Option ℤ) →
        free_key (keys_of s) ≡ None →
        Begins P.functions s t (call.KeyCreate h) (refused EAGAIN) }
    ensures made { (s : State P P.State P.Shared) (t : ℕ) (h : Option ℤ) (k : ℕ) →
        free_key (keys_of s) ≡ Some k →
        Begins P.functions s t (call.KeyCreate h) (
        keys_become (created k (destructor_by h)) then returns k) }
{}

/// This explicitly destroys a key `k`. Here its destructor is not called.
pub fn pth_key_delete<P: Program>()
    ensures { (s : State P P.State P.Shared) (t : ℕ) (k : ℤ) →
        Begins P.functions s t (call.KeyDelete k) (
        refused ENOENT when not (is_key (keys_of s) (key_named k)) otherwise
        keys_become (deleted (key_named k)) then returns 1) }
{}

/// This stores value `v` under key `k`, for the current thread `t`.
pub fn pth_key_setdata<P: Program>()
    ensures { (s : State P P.State P.Shared) (t : ℕ) (k v : ℤ) →
        Begins P.functions s t (call.KeySet k v) (
        refused ENOENT when not (is_key (keys_of s) (key_named k)) otherwise
        keys_become (with_key_value t (key_named k) v) then returns 1) }
{}

/// This retrieves the value under key `k`, of the current thread `t`.
pub fn pth_key_getdata<P: Program>()
    ensures { (s : State P P.State P.Shared) (t : ℕ) (k : ℤ) →
        Begins P.functions s t (call.KeyGet k) (
        refused ENOENT when not (is_key (keys_of s) (key_named k)) otherwise
        answers (Int ((keys_of s).values (key_named k) t))) }
{}
