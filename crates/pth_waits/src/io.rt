//! Generalized I/O: `pth_read`, `pth_write`, `pth_accept`, `pth_connect`, `pth_select`, each with and without a ring of events.

ghost use Rattle.std.specs.Prelude.{◌≡◌, ◌≤◌, ℕ, false, is_some, Some, None, IfOk, IfSome, IsSome, OnOk};
ghost use Rattle.pth_base.specs.Limits.{last_moment};
ghost use Rattle.pth_base.specs.declared.call.Call.{Call as CallOf};
ghost use Rattle.pth_kernel.specs.Kernel.{kernel_of};
ghost use Rattle.pth_model.specs.Io.{begins_waiting, select_deadline};
ghost use Rattle.pth_model.specs.RingWaits.{is_no_ring as is_none_in, ring_given as given};
ghost use Rattle.pth_model.specs.Rows.{row_of};
ghost use Rattle.pth_model.specs.State.{State};
ghost use Rattle.pth_model.specs.declared.verdict.Verdict.TheVariants.{Blocks};
ghost use Rattle.pth_waits.specs.Io.{first_awaited, is_at_once, is_refused_length};
ghost use Rattle.pth_waits.specs.Verdicts.{Begins, IsCounted};
ghost use Rattle.pth_world.specs.Frame.{Frame};
ghost use Rattle.pth_world.specs.Leading.{IsReady, MayComeTo, Tries};
ghost use Rattle.pth_world.specs.Numbering.{no_numbers};
ghost use Rattle.pth_world.specs.Shows.{StandsFor};
ghost use Rattle.pth_world.specs.WellFormed.{MayAwait, MayAwaitAs, WellFormed};

use crate::ring_waits::{claim_given, is_no_ring};
use crate::trials::{count_or, try_awaited};
use pth_base::answer::Answer;
use pth_base::call::Call;
use pth_base::errno::Errno;
use pth_base::ids::{Micros, Tid};
use pth_base::memory::OutOfMemory;
use pth_base::program::Program;
use pth_base::refusal::Refusal;
use pth_io::select::are_all_live;
use pth_kernel::kernel::Kernel;
use pth_model::awaits::{Awaits, ring_given};
use pth_model::times::{micros, moment_after};
use pth_model::verdict::Verdict;
use pth_world::world::World;

// Whether a select is refused for its length: one below -1, if all members of its sets are open.
fn is_refused_length<P: Program>(w: &World<P>, call: &Call) -> bool
    ensures { (s : State P P.State P.Shared) → StandsFor w.now s → result ≡ is_refused_length s call.now }
{
    match call {
        Call::Select { r, w: writes, x, l }
        | Call::SelectEv {
            r,
            w: writes,
            x,
            l,
            ..
        } => { *l < -1 && are_all_live(w.kernel(), *r, *writes, *x) }
        _ => false,
    }
}

// Whether the call's descriptor doesn't block (`pth_fdmode`): those of a select may.
fn is_at_once(k: &Kernel, call: &Call) -> bool
    ensures { result ≡ is_at_once (kernel_of k.now) call.now }
{
    match call {
        Call::Read { f, .. }
        | Call::ReadEv { f, .. }
        | Call::Write { f, .. }
        | Call::WriteEv { f, .. }
        | Call::Accept(f)
        | Call::AcceptEv { f, .. }
        | Call::Connect(f)
        | Call::ConnectEv { f, .. } => k.nonblock(*f),
        _ => false,
    }
}

// The deadline of a select that begins now: -1 is without one.
fn select_deadline<P: Program>(w: &World<P>, l: i64) -> Option<Micros>
    ensures deadline { (s : State P P.State P.Shared) → StandsFor w.now s → result ≡ select_deadline s l }
    ensures within { IfSome result (λ m. m ≤ last_moment) }
{
    if l < 0 {
        None
    } else {
        Some(moment_after(w.time(), micros(l)))
    }
}

// What a call on descriptors waits for if it is not answered at once; none of any other call.
fn first_awaited<P: Program>(w: &World<P>, call: &Call) -> Option<Awaits>
    ensures awaits { (s : State P P.State P.Shared) → StandsFor w.now s → result ≡ first_awaited s call.now }
    ensures may { (t : ℕ) → IfSome result (λ a. MayAwaitAs t call.now a) }
{
    let awaits = match call {
        Call::Read { f, n } | Call::ReadEv { f, n, .. } => Awaits::Reading { f: *f, n: *n },
        Call::Write { f, bytes } | Call::WriteEv { f, bytes, .. } => Awaits::Writing {
            f: *f,
            total: bytes.as_slice().len(),
            written: 0,
        },
        Call::Accept(f) | Call::AcceptEv { f, .. } => Awaits::Connection(*f),
        Call::Connect(f) | Call::ConnectEv { f, .. } => Awaits::ConnectAnswer(*f),
        Call::Select { r, w: writes, x, l }
        | Call::SelectEv {
            r,
            w: writes,
            x,
            l,
            ..
        } => Awaits::Selection {
            r: *r,
            w: *writes,
            x: *x,
            deadline: select_deadline(w, *l),
        },
        _ => return None,
    };
    Some(awaits)
}

// What the first attempt comes to as the call begins: what is not yet is answered at once if its descriptor doesn't block (EAGAIN), or
// if its ring is claimed (EBUSY), with its count in their place if it wrote a part; else it claims its ring, and waits.
fn begin_waiting<P: Program>(
    w: &mut World<P>,
    t: Tid,
    at_once: bool,
    ring: Option<i64>,
    verdict: Verdict,
) -> Result<Verdict, OutOfMemory>
    requires whole { WellFormed w.old }
    requires counted { IsCounted verdict }
    ensures begins { IfOk result (λ x. (s : State P P.State P.Shared) → StandsFor w.old s → is_none_in s ring ≡ false → begins_waiting s at_once ring verdict ≡ x) }
    ensures ready { IfOk result (λ x. (call : CallOf) (before s : State P P.State P.Shared) → IsSome (first_awaited before call) → StandsFor w.old s → IsReady w.new t.0 call ring x s) }
    ensures may { IfOk result (λ x. (call : CallOf) → MayComeTo t.0 call verdict → MayComeTo t.0 call x) }
    ensures frame { Frame w.old w.new no_numbers w.old.scheduler.running false }
{
    let awaits = match verdict {
        Verdict::Blocks(awaits) => awaits,
        answered => return Ok(answered),
    };
    if at_once {
        return Ok(Verdict::Says(count_or(awaits.written(), Errno::EAGAIN)));
    }
    match claim_given(w, t, ring) {
        Ok(()) => Ok(Verdict::Blocks(awaits)),
        Err(Refusal::Fail(errno)) => Ok(Verdict::Says(count_or(awaits.written(), errno))),
        Err(Refusal::OutOfMemory) => Err(OutOfMemory),
    }
}

// The first attempt at a call, if nothing refuses it.
fn try_first<P: Program>(
    w: &mut World<P>,
    t: Tid,
    call: &Call,
    awaits: Awaits,
) -> Result<Verdict, OutOfMemory>
    requires whole { WellFormed w.old }
    requires awaits { (s : State P P.State P.Shared) → StandsFor w.old s → first_awaited s call.now ≡ Some awaits }
    requires may { MayAwaitAs t.0 call.now awaits }
    requires ring { (s : State P P.State P.Shared) → StandsFor w.old s → is_none_in s (given call.now) ≡ false }
    requires length { (s : State P P.State P.Shared) → StandsFor w.old s → is_refused_length s call.now ≡ false }
    ensures attempts { IfOk result (λ x. Begins w.old w.new t.0 call.now (λ s. row_of P.functions s t.0 call.now) x) }
    ensures frame { OnOk result (Frame w.old w.new no_numbers w.old.scheduler.running false) }
{
    let at_once = is_at_once(w.kernel(), call);
    let verdict = try_awaited(w.kernel_mut(), awaits)?;
    begin_waiting(w, t, at_once, ring_given(call), verdict)
}

/// A call on descriptors, as it begins: answered by its first attempt, or else it waits, beside the ring that it was given. EINVAL if
/// there is no such ring, EAGAIN if its descriptor doesn't block, and EBUSY if the ring is claimed; a write that came through in part
/// is answered with its count in place of the last two. None of any other call.
pub(crate) fn begin_io<P: Program>(
    w: &mut World<P>,
    t: Tid,
    call: &Call,
) -> Result<Option<Verdict>, OutOfMemory>
    requires whole { WellFormed w.old }
    ensures attempts { IfOk result (λ o. IfSome o (λ x. Begins w.old w.new t.0 call.now (λ s. row_of P.functions s t.0 call.now) x)) }
    ensures descriptors { IfOk result (λ o. (s : State P P.State P.Shared) → StandsFor w.old s → is_some o ≡ is_some (first_awaited s call.now)) }
    ensures same { IfOk result (λ o. o ≡ None → w.new ≡ w.old) }
    ensures frame { OnOk result (Frame w.old w.new no_numbers w.old.scheduler.running false) }
{
    let awaits = match first_awaited(w, call) {
        Some(awaits) => awaits,
        None => return Ok(None),
    };
    if is_no_ring(w, ring_given(call)) || is_refused_length(w, call) {
        return Ok(Some(Verdict::Says(Answer::Fail(Errno::EINVAL))));
    }
    let verdict = try_first(w, t, call, awaits)?;
    Ok(Some(verdict))
}

/// A call on descriptors, tried again: answered by the attempt, or it waits on.
pub(crate) fn io_again<P: Program>(
    w: &mut World<P>,
    t: Tid,
    awaits: Awaits,
) -> Result<Verdict, OutOfMemory>
    requires whole { WellFormed w.old }
    requires may { MayAwait awaits }
    ensures tries { IfOk result (λ x. (call : CallOf) → ((s : State P P.State P.Shared) → IsSome (first_awaited s call)) → MayAwaitAs t.0 call awaits → Tries w.old w.new t.0 (record { call = call; awaits = awaits }) (λ s. (row_of P.functions s t.0 call).again awaits) x) }
    ensures frame { OnOk result (Frame w.old w.new no_numbers w.old.scheduler.running false) }
{
    try_awaited(w.kernel_mut(), awaits)
}
