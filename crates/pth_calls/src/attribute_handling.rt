//! Thread attribute handling: `pth_attr_new`, `pth_attr_of`, `pth_attr_init`, `pth_attr_set`, `pth_attr_get`, `pth_attr_destroy`.

ghost use Rattle.std.specs.Prelude.{◌≡◌, Some, IfOk, OnOk, false};
ghost use Rattle.pth_base.specs.Facilities.{facility_of};
ghost use Rattle.pth_base.specs.declared.facility.Facility.TheVariants as facility;
ghost use Rattle.pth_base.specs.declared.mark.Mark.TheVariants.{Answered};
ghost use Rattle.pth_model.specs.AttributeHandling.{answer_of as value_said, attr_new as new_row, attr_of as of_row, attr_init as init_row, attr_set as set_row, attr_get as get_row, attr_destroy as destroy_row};
ghost use Rattle.pth_model.specs.Rows.{row_of};
ghost use Rattle.pth_model.specs.State.{State};
ghost use Rattle.pth_world.specs.Frame.{Frame};
ghost use Rattle.pth_world.specs.Leading.{IsAnswered, IsQuiet};
ghost use Rattle.pth_world.specs.Numbering.{HasNumbers, no_numbers, Object, one_of};
ghost use Rattle.pth_world.specs.WellFormed.{WellFormed};

use pth_base::answer::Answer;
use pth_base::attr::{AttrField, AttrValue};
use pth_base::call::Call;
use pth_base::errno::Errno;
use pth_base::ids::Tid;
use pth_base::memory::OutOfMemory;
use pth_base::program::Program;
use pth_end::saying::{answer_of, refused};
use pth_world::world::World;

// The value of a field, as an answer.
fn value_of(v: AttrValue) -> Answer
    ensures { result ≡ value_said v }
{
    match v {
        AttrValue::Name(name) => Answer::Text(name),
        AttrValue::Prio(n) => Answer::Int(n),
        AttrValue::Joinable(n) => Answer::Int(n),
        AttrValue::Cancel(n) => Answer::Int(n),
        AttrValue::Dispatches(n) => Answer::Int(n),
        AttrValue::State(n) => Answer::Int(n),
        AttrValue::Bound(n) => Answer::Int(n),
    }
}

// pth_attr_new: an object with the first values.
fn attr_new<P: Program>(w: &mut World<P>) -> Result<Answer, OutOfMemory>
    requires whole { WellFormed w.old }
    requires few { HasNumbers w.old }
    ensures answered { IfOk result (λ a. IsAnswered w.old w.new a (λ (s : State P P.State P.Shared). (new_row s).begin)) }
    ensures frame { OnOk result (Frame w.old w.new (one_of Object) w.old.scheduler.running false) }
{
    match w.attrs_mut().create() {
        Ok(object) => Ok(Answer::Int(i64::from(object.0))),
        Err(refusal) => refused(refusal),
    }
}

// pth_attr_of: an object that is bound to a thread.
fn attr_of<P: Program>(w: &mut World<P>, n: i64) -> Result<Answer, OutOfMemory>
    requires whole { WellFormed w.old }
    requires few { HasNumbers w.old }
    ensures answered { IfOk result (λ a. IsAnswered w.old w.new a (λ (s : State P P.State P.Shared). (of_row s n).begin)) }
    ensures frame { OnOk result (Frame w.old w.new (one_of Object) w.old.scheduler.running false) }
{
    let t = match w.known(n) {
        Some(it) => it.tid,
        None => return Ok(Answer::Fail(Errno::ESRCH)),
    };
    match w.attr_of(t) {
        Ok(object) => Ok(Answer::Int(i64::from(object.0))),
        Err(refusal) => refused(refusal),
    }
}

// pth_attr_init: an object has the first values again.
fn attr_init<P: Program>(w: &mut World<P>, a: i64) -> Answer
    requires whole { WellFormed w.old }
    ensures answered { IsAnswered w.old w.new result (λ (s : State P P.State P.Shared). (init_row s a).begin) }
    ensures frame { Frame w.old w.new no_numbers w.old.scheduler.running false }
{
    answer_of(w.attrs_mut().init(a))
}

// pth_attr_set: a field of an object is set, or of the thread to which it is bound.
fn attr_set<P: Program>(w: &mut World<P>, a: i64, v: &AttrValue) -> Answer
    requires whole { WellFormed w.old }
    ensures answered { IsAnswered w.old w.new result (λ (s : State P P.State P.Shared). (set_row s a v.now).begin) }
    ensures frame { Frame w.old w.new no_numbers w.old.scheduler.running false }
{
    answer_of(w.attr_set(a, v))
}

// pth_attr_get: a field of an object, or of the thread to which it is bound.
fn attr_get<P: Program>(w: &World<P>, a: i64, field: AttrField) -> Answer
    requires whole { WellFormed w.now }
    ensures { IsAnswered w.now w.now result (λ (s : State P P.State P.Shared). (get_row s a field).begin) }
{
    match w.attrs().get(a, field, w.threads()) {
        Ok(v) => value_of(v),
        Err(e) => Answer::Fail(e),
    }
}

// pth_attr_destroy: an object is gone.
fn attr_destroy<P: Program>(w: &mut World<P>, a: i64) -> Answer
    requires whole { WellFormed w.old }
    ensures answered { IsAnswered w.old w.new result (λ (s : State P P.State P.Shared). (destroy_row s a).begin) }
    ensures frame { Frame w.old w.new no_numbers w.old.scheduler.running false }
{
    answer_of(w.attrs_mut().destroy(a))
}

/// The answer of a call on attribute objects.
pub(crate) fn answer_attributes<P: Program>(
    w: &mut World<P>,
    t: Tid,
    call: &Call,
) -> Result<Answer, OutOfMemory>
    requires whole { WellFormed w.old }
    requires runs { w.old.scheduler.running ≡ Some t.0 }
    requires few { HasNumbers w.old }
    requires attributes { facility_of call.now ≡ Some facility.Attributes }
    ensures answered { IfOk result (λ a. IsAnswered w.old w.new a (λ (s : State P P.State P.Shared). (row_of P.functions s t.0 call.now).begin)) }
    ensures quiet { IfOk result (λ a. IsQuiet (Answered t call.now a)) }
    ensures frame { OnOk result (Frame w.old w.new (one_of Object) (Some t.0) false) }
{
    match call {
        Call::AttrNew => attr_new(w),
        Call::AttrOf(n) => attr_of(w, *n),
        Call::AttrInit(a) => Ok(attr_init(w, *a)),
        Call::AttrSet { a, v } => Ok(attr_set(w, *a, v)),
        Call::AttrGet { a, f } => Ok(attr_get(w, *a, *f)),
        Call::AttrDestroy(a) => Ok(attr_destroy(w, *a)),
        _ => unreachable!(),
    }
}
