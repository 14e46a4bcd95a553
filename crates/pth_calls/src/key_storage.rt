//! Key-based storage: `pth_key_create`, `pth_key_delete`, `pth_key_setdata`, `pth_key_getdata`.

ghost use Rattle.std.specs.Prelude.{◌≡◌, Some, IfOk, OnOk, false};
ghost use Rattle.pth_base.specs.Facilities.{facility_of};
ghost use Rattle.pth_base.specs.declared.call.Call.TheVariants.{KeyCreate, KeyDelete, KeyGet};
ghost use Rattle.pth_base.specs.declared.facility.Facility.TheVariants as facility;
ghost use Rattle.pth_base.specs.declared.mark.Mark.TheVariants.{Answered};
ghost use Rattle.pth_model.specs.KeyStorage.{key_create as create_row, key_delete as delete_row, key_get as get_row};
ghost use Rattle.pth_model.specs.Rows.{row_of};
ghost use Rattle.pth_model.specs.State.{State};
ghost use Rattle.pth_world.specs.Frame.{Frame};
ghost use Rattle.pth_world.specs.Leading.{IsAnswered, IsTold};
ghost use Rattle.pth_world.specs.Numbering.{no_numbers};
ghost use Rattle.pth_world.specs.WellFormed.{WellFormed};

use crate::handler_numbers::destructor_named;
use pth_base::answer::Answer;
use pth_base::call::Call;
use pth_base::ids::Tid;
use pth_base::memory::OutOfMemory;
use pth_base::program::Program;
use pth_end::acts::set_key;
use pth_end::saying::answer_of;
use pth_world::world::World;

// pth_key_create: the least free key.
fn create_key<P: Program>(w: &mut World<P>, t: Tid, destructor: Option<i64>) -> Answer
    requires whole { WellFormed w.old }
    requires runs { w.old.scheduler.running ≡ Some t.0 }
    ensures told { IsTold w.old w.new (Answered t (KeyCreate destructor) result) result (λ (s : State P P.State P.Shared). (create_row s).begin) }
    ensures frame { Frame w.old w.new no_numbers (Some t.0) false }
{
    match w.create_key(destructor_named(destructor)) {
        Ok(key) => Answer::Int(i64::from(key)),
        Err(e) => Answer::Fail(e),
    }
}

// pth_key_delete: a key is free again.
fn delete_key<P: Program>(w: &mut World<P>, t: Tid, k: i64) -> Answer
    requires whole { WellFormed w.old }
    requires runs { w.old.scheduler.running ≡ Some t.0 }
    ensures told { IsTold w.old w.new (Answered t (KeyDelete k) result) result (λ (s : State P P.State P.Shared). (delete_row s k).begin) }
    ensures frame { Frame w.old w.new no_numbers (Some t.0) false }
{
    answer_of(w.delete_key(k))
}

// pth_key_getdata: the thread's value under a key.
fn value_of<P: Program>(w: &World<P>, t: Tid, k: i64) -> Answer
    requires whole { WellFormed w.now }
    requires runs { w.now.scheduler.running ≡ Some t.0 }
    ensures { IsAnswered w.now w.now result (λ (s : State P P.State P.Shared). (get_row s t.0 k).begin) }
{
    match w.key_value(t, k) {
        Ok(value) => Answer::Int(value),
        Err(e) => Answer::Fail(e),
    }
}

/// The answer of a call of key-based storage.
pub(crate) fn answer_keys<P: Program>(
    w: &mut World<P>,
    t: Tid,
    call: &Call,
) -> Result<Answer, OutOfMemory>
    requires whole { WellFormed w.old }
    requires runs { w.old.scheduler.running ≡ Some t.0 }
    requires keys { facility_of call.now ≡ Some facility.Keys }
    ensures told { IfOk result (λ a. IsTold w.old w.new (Answered t call.now a) a (λ (s : State P P.State P.Shared). (row_of P.functions s t.0 call.now).begin)) }
    ensures frame { OnOk result (Frame w.old w.new no_numbers (Some t.0) false) }
{
    match call {
        Call::KeyCreate(destructor) => Ok(create_key(w, t, *destructor)),
        Call::KeyDelete(k) => Ok(delete_key(w, t, *k)),
        Call::KeySet { k, v } => set_key(w, t, *k, *v),
        Call::KeyGet(k) => Ok(value_of(w, t, *k)),
        _ => unreachable!(),
    }
}
