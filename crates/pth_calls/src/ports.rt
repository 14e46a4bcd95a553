//! Message port communication: `pth_msgport_create`, `pth_msgport_destroy`, `pth_msgport_find`, `pth_msgport_pending`,
//! `pth_msgport_put`, `pth_msgport_get`, `pth_msgport_reply`.

ghost use Rattle.std.specs.Prelude.{◌≡◌, Some, IfOk, OnOk, false, option_copied};
ghost use Rattle.pth_base.specs.Facilities.{facility_of};
ghost use Rattle.pth_base.specs.declared.call.Call.TheVariants.{PortCreate, PortGet, Reply, PortDestroy};
ghost use Rattle.pth_base.specs.declared.facility.Facility.TheVariants as facility;
ghost use Rattle.pth_base.specs.declared.mark.Mark.TheVariants.{Answered};
ghost use Rattle.pth_model.specs.Ports.{port_create as create_row, port_find as find_row, port_pending as pending_row, port_get as get_row, reply as reply_row, port_destroy as destroy_row};
ghost use Rattle.pth_model.specs.Rows.{row_of};
ghost use Rattle.pth_model.specs.State.{State};
ghost use Rattle.pth_world.specs.Frame.{Frame};
ghost use Rattle.pth_world.specs.Keeps.{KeepsAllButStore};
ghost use Rattle.pth_world.specs.Leading.{IsAnswered, IsTold};
ghost use Rattle.pth_world.specs.Numbering.{HasNumbers, Port, one_of};
ghost use Rattle.pth_world.specs.WellFormed.{WellFormed};

use pth_base::answer::Answer;
use pth_base::call::Call;
use pth_base::ids::Tid;
use pth_base::memory::OutOfMemory;
use pth_base::name::Name;
use pth_base::program::Program;
use pth_base::refusal::Refusal;
use pth_end::acts::put_message;
use pth_end::saying::refused;
use pth_world::world::World;

// pth_msgport_create: the next number.
fn create_port<P: Program>(
    w: &mut World<P>,
    t: Tid,
    name: Option<&Name>,
) -> Result<Answer, OutOfMemory>
    requires whole { WellFormed w.old }
    requires runs { w.old.scheduler.running ≡ Some t.0 }
    requires few { HasNumbers w.old }
    ensures told { IfOk result (λ a. IsTold w.old w.new (Answered t (PortCreate (option_copied name.entry)) a) a (λ (s : State P P.State P.Shared). (create_row s (option_copied name.entry)).begin)) }
    ensures frame { OnOk result (Frame w.old w.new (one_of Port) (Some t.0) false) }
{
    match w.ports_mut().create(name) {
        Ok(port) => Ok(Answer::Int(i64::from(port.0))),
        Err(refusal) => refused(refusal),
    }
}

// pth_msgport_find: the live port that has the name.
fn find_port<P: Program>(w: &World<P>, name: &Name) -> Answer
    ensures { IsAnswered w.now w.now result (λ (s : State P P.State P.Shared). (find_row s name.now).begin) }
{
    match w.ports().find(name) {
        Ok(port) => Answer::Int(i64::from(port.0)),
        Err(e) => Answer::Fail(e),
    }
}

// pth_msgport_pending: how many messages are queued.
fn count_messages<P: Program>(w: &World<P>, p: i64) -> Answer
    ensures { IsAnswered w.now w.now result (λ (s : State P P.State P.Shared). (pending_row s p).begin) }
{
    match w.ports().pending(p) {
        Ok(count) => Answer::Int(i64::from(count)),
        Err(e) => Answer::Fail(e),
    }
}

// pth_msgport_get: the oldest message.
fn get_message<P: Program>(w: &mut World<P>, t: Tid, p: i64) -> Answer
    ensures told { IsTold w.old w.new (Answered t (PortGet p) result) result (λ (s : State P P.State P.Shared). (get_row s p).begin) }
    ensures keeps { KeepsAllButStore w.old w.new }
{
    match w.ports_mut().get(p) {
        Ok((id, value)) => Answer::Msg { id, value },
        Err(e) => Answer::Fail(e),
    }
}

// pth_msgport_reply: a held message goes back.
fn reply<P: Program>(w: &mut World<P>, t: Tid, m: i64, v: i64) -> Answer
    ensures told { IsTold w.old w.new (Answered t (Reply m v) result) result (λ (s : State P P.State P.Shared). (reply_row s m).begin) }
    ensures keeps { KeepsAllButStore w.old w.new }
{
    match w.ports_mut().reply(m, v) {
        Ok(()) => Answer::Int(1),
        Err(Refusal::Fail(e)) => Answer::Fail(e),
        Err(Refusal::OutOfMemory) => unreachable!(),
    }
}

// pth_msgport_destroy: a port is gone, and its messages go back.
fn destroy_port<P: Program>(w: &mut World<P>, t: Tid, p: i64) -> Answer
    ensures told { IsTold w.old w.new (Answered t (PortDestroy p) result) result (λ (s : State P P.State P.Shared). (destroy_row s p).begin) }
    ensures keeps { KeepsAllButStore w.old w.new }
{
    match w.ports_mut().destroy(p) {
        Ok(()) => Answer::Int(1),
        Err(Refusal::Fail(e)) => Answer::Fail(e),
        Err(Refusal::OutOfMemory) => unreachable!(),
    }
}

/// The answer of a call of message port communication.
pub(crate) fn answer_ports<P: Program>(
    w: &mut World<P>,
    t: Tid,
    call: &Call,
) -> Result<Answer, OutOfMemory>
    requires whole { WellFormed w.old }
    requires runs { w.old.scheduler.running ≡ Some t.0 }
    requires few { HasNumbers w.old }
    requires ports { facility_of call.now ≡ Some facility.Ports }
    ensures told { IfOk result (λ a. IsTold w.old w.new (Answered t call.now a) a (λ (s : State P P.State P.Shared). (row_of P.functions s t.0 call.now).begin)) }
    ensures frame { OnOk result (Frame w.old w.new (one_of Port) (Some t.0) false) }
{
    match call {
        Call::PortCreate(name) => create_port(w, t, name.as_ref()),
        Call::PortFind(name) => Ok(find_port(w, name)),
        Call::PortPending(p) => Ok(count_messages(w, *p)),
        Call::PortPut { p, v, r } => put_message(w, *p, *v, *r),
        Call::PortGet(p) => Ok(get_message(w, t, *p)),
        Call::Reply { m, v } => Ok(reply(w, t, *m, *v)),
        Call::PortDestroy(p) => Ok(destroy_port(w, t, *p)),
        _ => unreachable!(),
    }
}
