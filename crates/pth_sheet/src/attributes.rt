//! Thread Attribute Handling of pth(3): attribute objects, `pth_attr_t`.
//!
//! An object is `Free`, with values of its own, or `Bound` to a thread. The fields for the stack, the times, the start function and the
//! events are left out.

ghost use Rattle.std.specs.Prelude.{ℕ, ◌+◌, ℤ, is_none, Some, ◌≡◌, None, not};
ghost use Rattle.pth_base.specs.declared.attr.AttrField.{AttrField};
ghost use Rattle.pth_base.specs.declared.attr.AttrValue.{AttrValue};
ghost use Rattle.pth_base.specs.declared.call.Call.TheVariants as call;
ghost use Rattle.pth_base.specs.declared.errno.Errno.TheVariants.{EAGAIN, ESRCH, EINVAL, EPERM};
ghost use Rattle.pth_base.specs.declared.ids.Tid.{Tid};
ghost use Rattle.pth_numbered.specs.Operands.{named, number};
ghost use Rattle.pth_threads.specs.Attributes.{first_values, is_bound, is_fixed, is_in_range, with_value, change_of, is_of_thread, field_of_values, field_of_thread};
ghost use Rattle.pth_threads.specs.declared.attribute.Attribute.TheVariants.{Free, Bound};
ghost use Rattle.pth_threads.specs.declared.entry.Entry.{Entry};
ghost use Rattle.pth_threads.specs.declared.entry.NewThread.{NewThread};
ghost use Rattle.pth_model.specs.AttributeHandling.{object, sets_field, answer_of};
ghost use Rattle.pth_model.specs.Changes.{adds_object, puts_object};
ghost use Rattle.pth_model.specs.State.{State};
ghost use Rattle.pth_model.specs.Transition.{tid};
ghost use Rattle.pth_sheet.specs.Outcomes.{Begins, refused, ◌then◌, returns, answers};
ghost use Rattle.pth_numbered.specs.Clauses.{◌when◌otherwise◌};
ghost use Rattle.pth_sheet.specs.States.{is_full_of_attributes, control_becomes};

use pth_base::program::Program;

/// This returns a new attribute object bound to thread `n`. Any queries on this object directly fetch attributes from `n`, and attribute
/// modifications directly change `n`.
pub fn pth_attr_of<P: Program>()
    ensures { (s : State P P.State P.Shared) (t : ℕ) (n : ℤ) →
        Begins P.functions s t (call.AttrOf n) (
        refused ESRCH when is_none (named s.control.threads.known n) otherwise
        refused EAGAIN when is_full_of_attributes s otherwise
        control_becomes (adds_object (Bound (tid (number n)))) then
        returns (s.control.attributes.made + 1)) }
{}

/// This returns a new unbound attribute object. An implicit pth_attr_init(3) is done on it.
pub fn pth_attr_new<P: Program>()
    ensures { (s : State P P.State P.Shared) (t : ℕ) →
        Begins P.functions s t call.AttrNew (
        refused EAGAIN when is_full_of_attributes s otherwise
        control_becomes (adds_object (Free first_values)) then
        returns (s.control.attributes.made + 1)) }
{}

/// This initializes an attribute object `a` to the default values: `PTH_ATTR_PRIO` := `PTH_PRIO_STD`, `PTH_ATTR_NAME` := `unknown`,
/// `PTH_ATTR_JOINABLE` := TRUE, `PTH_ATTR_CANCEL_STATE` := `PTH_CANCEL_DEFAULT`. Here a bound object is refused (EPERM), and
/// `PTH_ATTR_DISPATCHES` is not kept in an unbound one.
pub fn pth_attr_init<P: Program>()
    ensures { (s : State P P.State P.Shared) (t : ℕ) (a : ℤ) →
        Begins P.functions s t (call.AttrInit a) (
        refused EINVAL when is_none (object s.control a) otherwise
        refused EPERM when is_bound (object s.control a) otherwise
        control_becomes (puts_object (number a) (Some (Free first_values))) then returns 1) }
{}

/// This sets an attribute field in `a` to the value `v`. On an unbound object, attribute modifications just change the stored attributes.
/// On an object bound to thread `u`, they directly change `u`. Here the dispatch count is read-only (EPERM).
pub fn pth_attr_set<P: Program>()
    ensures no_object { (s : State P P.State P.Shared) (t : ℕ) (a : ℤ) (v : AttrValue) →
        object s.control a ≡ None →
        Begins P.functions s t (call.AttrSet a v) (refused EINVAL) }
    ensures of_unbound_object { (s : State P P.State P.Shared) (t : ℕ) (a : ℤ) (v : AttrValue)
        (x : NewThread) →
        object s.control a ≡ Some (Free x) →
        Begins P.functions s t (call.AttrSet a v) (
        refused EPERM when is_fixed v otherwise
        refused EINVAL when not (is_in_range s.control.top v) otherwise
        control_becomes (puts_object (number a) (Some (Free (with_value v x)))) then returns 1) }
    ensures thread_is_gone { (s : State P P.State P.Shared) (t : ℕ) (a : ℤ) (v : AttrValue)
        (u : Tid) →
        object s.control a ≡ Some (Bound u) →
        s.control.threads.known u.0 ≡ None →
        Begins P.functions s t (call.AttrSet a v) (refused ESRCH) }
    ensures of_bound_object { (s : State P P.State P.Shared) (t : ℕ) (a : ℤ) (v : AttrValue)
        (u : Tid) (e : Entry) →
        object s.control a ≡ Some (Bound u) →
        s.control.threads.known u.0 ≡ Some e →
        Begins P.functions s t (call.AttrSet a v) (
        refused EPERM when is_fixed v otherwise
        refused EINVAL when not (is_in_range s.control.top v) otherwise
        control_becomes (sets_field u.0 (change_of v)) then returns 1) }
{}

/// This retrieves the attribute field `field` in `a`. Queries on an unbound object just fetch stored attributes from it. Queries on an
/// object bound to thread `u` directly fetch attributes from `u`. `PTH_ATTR_STATE` can be queried only when the attribute object is bound
/// to a thread. Here this also holds for `PTH_ATTR_DISPATCHES`.
pub fn pth_attr_get<P: Program>()
    ensures no_object { (s : State P P.State P.Shared) (t : ℕ) (a : ℤ) (field : AttrField) →
        object s.control a ≡ None →
        Begins P.functions s t (call.AttrGet a field) (refused EINVAL) }
    ensures of_unbound_object { (s : State P P.State P.Shared) (t : ℕ) (a : ℤ) (field : AttrField)
        (x : NewThread) →
        object s.control a ≡ Some (Free x) →
        Begins P.functions s t (call.AttrGet a field) (
        refused EINVAL when is_of_thread field otherwise
        answers (answer_of (field_of_values field x))) }
    ensures thread_is_gone { (s : State P P.State P.Shared) (t : ℕ) (a : ℤ) (field : AttrField)
        (u : Tid) →
        object s.control a ≡ Some (Bound u) →
        s.control.threads.known u.0 ≡ None →
        Begins P.functions s t (call.AttrGet a field) (refused ESRCH) }
    ensures of_bound_object { (s : State P P.State P.Shared) (t : ℕ) (a : ℤ) (field : AttrField)
        (u : Tid) (e : Entry) →
        object s.control a ≡ Some (Bound u) →
        s.control.threads.known u.0 ≡ Some e →
        Begins P.functions s t (call.AttrGet a field) (
        answers (answer_of (field_of_thread field e))) }
{}

/// This destroys an attribute object `a`. After this `a` is no longer a valid attribute object.
pub fn pth_attr_destroy<P: Program>()
    ensures { (s : State P P.State P.Shared) (t : ℕ) (a : ℤ) →
        Begins P.functions s t (call.AttrDestroy a) (
        refused EINVAL when is_none (object s.control a) otherwise
        control_becomes (puts_object (number a) None) then returns 1) }
{}
