//! Those who wait at a barrier.

ghost use Rattle.std.specs.Prelude.{◌≡◌, vec_capacity};
ghost use Rattle.pth_cond.specs.Barriers.{arrived_in, waits_among, is_headlight, late_behind, without_thread};
ghost use Rattle.pth_cond.specs.Kept.{arrivals_of};

use pth_base::ids::Tid;

// An arrival that waits: who, for which round, and whether an earlier arrival of its round was answered.
#[derive(Clone, Copy)]
pub(crate) struct Waiter {
    pub(crate) tid: Tid,
    pub(crate) round: u64,
    pub(crate) late: bool,
}

// How many arrivals wait for a round.
pub(crate) fn count(entries: &[Waiter], round: u64) -> usize
    ensures { result ≡ arrived_in round (arrivals_of entries.now) }
{
    entries.iter().filter(|e| e.round == round).count()
}

// Whether a thread has an arrival.
pub(crate) fn has(entries: &[Waiter], t: Tid) -> bool
    ensures { result ≡ waits_among t.0 (arrivals_of entries.now) }
{
    entries.iter().any(|e| e.tid == t)
}

// Whether the first arrival of a round is this thread's, and none before it was answered.
pub(crate) fn is_first(entries: &[Waiter], round: u64, t: Tid) -> bool
    ensures { result ≡ is_headlight t.0 round (arrivals_of entries.now) }
{
    for e in entries {
        if e.round == round {
            return e.tid == t && !e.late;
        }
    }
    false
}

// Those of a round are late that stand behind the arrival of a thread.
pub(crate) fn mark_behind(entries: &mut [Waiter], round: u64, t: Tid)
    ensures { arrivals_of entries.new ≡ late_behind t.0 round (arrivals_of entries.old) }
{
    let mut behind = false;
    for i in 0..entries.len() {
        let e = entries[i];
        entries[i] = Waiter {
            late: e.late || behind && e.round == round,
            ..e
        };
        behind = behind || e.tid == t;
    }
}

// Takes the arrivals of a thread out.
pub(crate) fn take_out(entries: &mut Vec<Waiter>, t: Tid)
    ensures others { arrivals_of entries.new.items ≡ without_thread t.0 (arrivals_of entries.old.items) }
    ensures room { vec_capacity entries.new ≡ vec_capacity entries.old }
{
    let mut i = 0;
    while i < entries.len() {
        if entries[i].tid == t {
            entries.remove(i);
        } else {
            i += 1;
        }
    }
}
