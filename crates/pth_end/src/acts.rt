//! The acts of handlers, each as its call by the thread that runs the handler.

ghost use Rattle.std.specs.Prelude.{IfOk, OnOk};
ghost use Rattle.pth_base.specs.declared.call.Call.TheVariants.{KeySet, MutexRelease, PortPut};
ghost use Rattle.pth_base.specs.declared.ids.Tid.{Tid};
ghost use Rattle.pth_base.specs.declared.mark.Mark.TheVariants.{Acted, Answered};
ghost use Rattle.pth_end.specs.Handling.{IsHandled};
ghost use Rattle.pth_model.specs.Acts.{acts, row_of_act};
ghost use Rattle.pth_model.specs.Conditions.{cond_notify};
ghost use Rattle.pth_model.specs.KeyStorage.{key_set};
ghost use Rattle.pth_model.specs.Mutexes.{mutex_release};
ghost use Rattle.pth_model.specs.Ports.{port_put};
ghost use Rattle.pth_model.specs.State.{State};
ghost use Rattle.pth_world.specs.Leading.{LedTo, IsAnswered, IsTold};
ghost use Rattle.pth_world.specs.Shows.{StandsFor};
ghost use Rattle.pth_world.specs.Sound.{IsAlive};
ghost use Rattle.pth_world.specs.WellFormed.{WellFormed};

use crate::saying::{answer_of, refused};
use pth_base::act::Act;
use pth_base::answer::Answer;
use pth_base::ids::Tid;
use pth_base::mark::Mark;
use pth_base::marks::Marks;
use pth_base::memory::OutOfMemory;
use pth_base::program::Program;
use pth_world::world::World;

/// `pth_key_setdata`, as a call and as an act: sets a thread's value under a key. ENOENT where the key is not live.
pub fn set_key<P: Program>(w: &mut World<P>, t: Tid, k: i64, v: i64) -> Result<Answer, OutOfMemory>
    requires whole { WellFormed w.old }
    requires alive { IsAlive w.old.threads t.0 }
    ensures told { IfOk result (λ a. IsTold w.old w.new (Answered t (KeySet k v) a) a (λ (s : State P P.State P.Shared). (key_set s k).begin)) }
    ensures handled { OnOk result (IsHandled w.old w.new) }
{
    match w.set_key(t, k, v) {
        Ok(()) => Ok(Answer::Int(1)),
        Err(refusal) => refused(refusal),
    }
}

/// `pth_mutex_release`, as a call and as an act: a thread has one level less of a mutex. EINVAL where it is not initialised, EDEADLK
/// where nobody has it, EACCES where another has it.
pub fn release_mutex<P: Program>(w: &mut World<P>, t: Tid, m: i64) -> Answer
    requires whole { WellFormed w.old }
    requires alive { IsAlive w.old.threads t.0 }
    ensures told { IsTold w.old w.new (Answered t (MutexRelease m) result) result (λ (s : State P P.State P.Shared). (mutex_release s t.0 m).begin) }
    ensures handled { IsHandled w.old w.new }
{
    answer_of(w.release_mutex(t, m))
}

/// `pth_cond_notify`, as a call and as an act: of the seats at a condition that were not notified yet the first is, if `v` is 0,
/// and else each. EINVAL where it is not initialised.
pub fn notify<P: Program>(w: &mut World<P>, c: i64, v: i64) -> Answer
    requires whole { WellFormed w.old }
    ensures answered { IsAnswered w.old w.new result (λ (s : State P P.State P.Shared). (cond_notify s c v).begin) }
    ensures handled { IsHandled w.old w.new }
{
    answer_of(w.conditions_mut().notify(c, v != 0))
}

/// `pth_msgport_put`, as a call and as an act: a message with a value is last at a port. `reply` is the port for its reply, 0 for
/// none. EINVAL where the port is not live, or `reply` is neither 0 nor a live port, EAGAIN where 65,536 messages are queued or
/// held.
pub fn put_message<P: Program>(
    w: &mut World<P>,
    p: i64,
    v: i64,
    reply: i64,
) -> Result<Answer, OutOfMemory>
    requires whole { WellFormed w.old }
    ensures told { IfOk result (λ a. (t : Tid) → IsTold w.old w.new (Answered t (PortPut p v reply) a) a (λ (s : State P P.State P.Shared). (port_put s p reply).begin)) }
    ensures handled { OnOk result (IsHandled w.old w.new) }
{
    match w.ports_mut().put(p, v, reply) {
        Ok(_message) => Ok(Answer::Int(1)),
        Err(refusal) => refused(refusal),
    }
}

// The answer of an act, which does what its row says. A note and a shared value that is set call nothing.
fn answer_act<P: Program>(w: &mut World<P>, t: Tid, act: Act) -> Result<Answer, OutOfMemory>
    requires whole { WellFormed w.old }
    requires alive { IsAlive w.old.threads t.0 }
    ensures told { IfOk result (λ a. IsTold w.old w.new (Acted t act a) a (λ (s : State P P.State P.Shared). (row_of_act s t.0 act).begin)) }
    ensures handled { OnOk result (IsHandled w.old w.new) }
{
    match act {
        Act::Note(_) | Act::Set(_, _) => Ok(Answer::None),
        Act::SetKey(k, v) => set_key(w, t, k, v),
        Act::Release(m) => Ok(release_mutex(w, t, m)),
        Act::Notify(c, v) => Ok(notify(w, c, v)),
        Act::Put(p, v) => put_message(w, p, v, 0),
    }
}

/// Makes an act of a handler as a thread that is alive, and tells it with its answer. After an error the world may only be
/// dropped.
pub fn make_act<P: Program>(
    w: &mut World<P>,
    t: Tid,
    act: Act,
    marks: &mut Marks,
) -> Result<(), OutOfMemory>
    requires whole { WellFormed w.old }
    requires alive { IsAlive w.old.threads t.0 }
    ensures goes { LedTo (StandsFor w.old) (acts t.0 act) w.new marks.old marks.new result }
    ensures handled { OnOk result (IsHandled w.old w.new) }
{
    let answer = answer_act(w, t, act)?;
    marks.push(Mark::Acted {
        tid: t,
        act,
        answer,
    })
}
