//! The destructors of a thread that ends.

ghost use Rattle.std.specs.Prelude.{◌≡◌, ◌≤◌, true, IfSome, OnOk};
ghost use Rattle.pth_end.specs.Handling.{IsHandled};
ghost use Rattle.pth_model.specs.Ending.{due as due_in, next_destructor as next_of, round_limit, runs_destructor, destructs, runs_destructors};
ghost use Rattle.pth_world.specs.Leading.{LedTo};
ghost use Rattle.pth_world.specs.Shows.{StandsFor};
ghost use Rattle.pth_world.specs.Sound.{IsAlive};
ghost use Rattle.pth_world.specs.Store.{store_of};
ghost use Rattle.pth_world.specs.WellFormed.{WellFormed};

use crate::handlers::run_handler;
use pth_base::ids::{HandlerId, Tid};
use pth_base::mark::Mark;
use pth_base::marks::Marks;
use pth_base::memory::OutOfMemory;
use pth_base::program::Program;
use pth_model::destructors::{DestructorRound, Due};
use pth_world::world::World;

/// How many rounds of destructors a thread begins at most (`PTH_DESTRUCTOR_ITERATIONS`).
const MOST_ROUNDS: u8 = 4;

/// How many destructors a thread runs at most: in each round one for each key.
const MOST_DESTRUCTORS: u32 = 1024;

// Before the first destructor.
const FIRST_ROUND: DestructorRound = DestructorRound { number: 1, from: 0 };

// A destructor that is owed a value, in a round.
fn due(number: u8, owed: (u8, HandlerId, i64)) -> Due
    ensures { result ≡ due_in number owed }
{
    let (key, handler, value) = owed;
    Due {
        key,
        handler,
        value,
        round: DestructorRound {
            number,
            from: key as u16 + 1,
        },
    }
}

// The destructor that a thread runs next: the first that is owed in this round, else the first of one more round.
fn next_destructor<P: Program>(w: &World<P>, t: Tid, round: DestructorRound) -> Option<Due>
    requires whole { WellFormed w.now }
    requires alive { IsAlive w.now.threads t.0 }
    requires few { round.number ≤ round_limit }
    ensures next { result ≡ next_of (store_of w.now.store).keys t.0 round }
    ensures few { IfSome result (λ d. d.round.number ≤ round_limit) }
{
    if let Some(owed) = w.first_owed(t, round.from) {
        return Some(due(round.number, owed));
    }
    if round.number == MOST_ROUNDS {
        return None;
    }
    let owed = w.first_owed(t, 0)?;
    Some(due(round.number + 1, owed))
}

// Runs a destructor: the thread's value is 0 from then on, and the handler is given the value that it was.
fn run_destructor<P: Program>(
    w: &mut World<P>,
    t: Tid,
    due: Due,
    marks: &mut Marks,
) -> Result<(), OutOfMemory>
    requires whole { WellFormed w.old }
    requires alive { IsAlive w.old.threads t.0 }
    ensures goes { LedTo (StandsFor w.old) (runs_destructor P.functions t.0 due) w.new marks.old marks.new result }
    ensures handled { OnOk result (IsHandled w.old w.new) }
{
    w.clear_key(t, due.key);
    marks.push(Mark::Destructor {
        tid: t,
        key: due.key,
        arg: due.value,
    })?;
    run_handler(w, t, due.handler, due.value, marks)
}

// Runs the destructors that a thread is owed, from here in a round on, at most so many.
fn run_from<P: Program>(
    w: &mut World<P>,
    t: Tid,
    left: u32,
    round: DestructorRound,
    marks: &mut Marks,
) -> Result<(), OutOfMemory>
    requires whole { WellFormed w.old }
    requires alive { IsAlive w.old.threads t.0 }
    requires few { round.number ≤ round_limit }
    ensures goes { LedTo (StandsFor w.old) (destructs P.functions t.0 left round) w.new marks.old marks.new result }
    ensures handled { OnOk result (IsHandled w.old w.new) }
{
    if left == 0 {
        return Ok(());
    }
    let Some(due) = next_destructor(w, t, round) else {
        return Ok(());
    };
    run_destructor(w, t, due, marks)?;
    run_from(w, t, left - 1, due.round, marks)
}

/// Runs the destructors of a thread that ends, in at most four rounds (`pth_key_create`). A value that is set after them is
/// forgotten. After an error the world may only be dropped.
pub fn run_destructors<P: Program>(
    w: &mut World<P>,
    t: Tid,
    marks: &mut Marks,
) -> Result<(), OutOfMemory>
    requires whole { WellFormed w.old }
    requires alive { IsAlive w.old.threads t.0 }
    ensures goes { LedTo (StandsFor w.old) (runs_destructors P.functions t.0) w.new marks.old marks.new result }
    ensures handled { OnOk result (IsHandled w.old w.new) }
{
    run_from(w, t, MOST_DESTRUCTORS, FIRST_ROUND, marks)
}
