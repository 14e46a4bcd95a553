//! Runs that are saved, with their texts, and texts that are taken up or refused.

ghost use Rattle.std.specs.Prelude.{◌≡◌};

use crate::comparison::{has_ended, same, same_lines};
use crate::driven::machine_of;
use crate::places::{add_lines, move_time, steps, turn};
use pth_base::bytes::Bytes;
use pth_base::marks::Marks;
use pth_base::memory::OutOfMemory;
use pth_base::outcome::Outcome;
use pth_sched::machine::Machine;
use pth_script::Script;
use pth_script::read::ReadErr;
use pth_snapshot::load::{LoadErr, load};
use pth_snapshot::save::save;
use pth_text::rule::Rule;
use pth_text::text::Text;
use std::alloc::Global;
use std::process::Abort;
use std::test::Fail;

/// Threads that wait, are new, suspended and canceled, a mutex that is held, and two descriptors.
const SCRIPT: &str =
    "pth 1\nthread 0\nmutex_init 0\nmutex_acquire 0 0 0\na4 = attr_new\nattr_set a4 prio 3\na1 = spawn 1 0 0\na2 = spawn 2 0 a4\na3 = spawn 3 0 0\nsuspend a3\nyield 0\ncancel a1\nyield a2\nnote 5\nend\nthread 1\nmutex_acquire 0 0 0\nend\nthread 2\nnap 50\nexit 4\nend\nthread 3\nexit 9\nend\nkernel\nclock 10\nopen 3\nopen 5\nat 0 3 in 616263\nat 0 3 room 7\nat 40 5 eof\n";

/// A thread that main joins.
const JOINED: &str =
    "pth 1\nthread 0\na1 = spawn 1 9 0\na2 = join a1\nnote a2\nend\nthread 1\nexit a0\nend\n";

/// How a machine gets from its start to a place: by so many turns, by so many steps, or by turns and a move of idle time.
#[derive(Clone, Copy)]
enum At {
    Turns(u32),
    Steps(u64),
    Moved(u32),
}

/// What is saved at a place.
struct Saved {
    script: &'static str,
    at: At,
    text: &'static str,
}

static SAVED: [Saved; 5] = [
    // the start
    Saved {
        script: SCRIPT,
        at: At::Turns(0),
        text: "pthsnap 1\nsteps 0\nplace open\nnow 0\nturn 0\nfavour 1\nnamed 0\nthread 1 1 0 0 0 1 1 0 0 0 0 main\nfd 3 3 7 1\nfd 5 0 0 1\nend\n",
    },
    // a canceled thread is new to run, one waits, and one is suspended
    Saved {
        script: SCRIPT,
        at: At::Turns(4),
        text: "pthsnap 1\nsteps 15\nplace open\nnow 40\nturn 4\nfavour 1\nnamed 0\nthread 1 3 0 1 0 1 1 0 0 2 0 main\nthread 2 1 1 0 0 1 1 1 0 1 0 main.child\nthread 3 3 3 0 3 1 1 0 0 1 0 unknown\nthread 4 0 0 0 0 1 1 0 1 0 0 main.child\nmutex 0 1\nfd 3 3 7 1\nfd 5 0 0 1\nend\n",
    },
    // a thread runs
    Saved {
        script: SCRIPT,
        at: At::Steps(10),
        text: "pthsnap 1\nsteps 10\nplace step\nnow 20\nturn 3\nfavour 1\nnamed 0\nthread 1 1 1 0 0 1 1 0 0 1 0 main\nthread 2 2 0 0 0 1 1 0 0 1 0 main.child\nthread 3 3 3 0 3 1 1 0 0 1 0 unknown\nthread 4 0 0 0 0 1 1 0 1 0 0 main.child\nmutex 0 1\nfd 3 3 7 1\nfd 5 0 0 1\nend\n",
    },
    // a thread is dead, and time moved
    Saved {
        script: SCRIPT,
        at: At::Moved(5),
        text: "pthsnap 1\nsteps 16\nplace open\nnow 60\nturn 5\nfavour 1\nnamed 0\nthread 1 3 0 0 0 1 1 0 0 2 0 main\nthread 2 4 0 0 0 1 1 0 0 2 -1 main.child\nthread 3 1 4 0 3 1 1 0 0 1 0 unknown\nthread 4 0 0 0 0 1 1 0 1 0 0 main.child\nmutex 0 1\nfd 3 3 7 1\nfd 5 0 0 1\nend\n",
    },
    // main waits for a new thread
    Saved {
        script: JOINED,
        at: At::Turns(1),
        text: "pthsnap 1\nsteps 2\nplace open\nnow 1\nturn 1\nfavour 1\nnamed 0\nthread 1 3 0 0 0 1 1 0 0 1 0 main\nthread 2 0 0 0 0 1 1 0 0 0 0 main.child\nend\n",
    },
];

/// A text that is refused at a line.
struct Refused {
    script: &'static str,
    text: &'static str,
    line: u32,
}

static REFUSED: [Refused; 23] = [
    Refused {
        script: SCRIPT,
        text: "pthsnap 1\nsteps 16\nplace open\nnow 61\nturn 5\nfavour 1\nnamed 0\nthread 1 3 0 0 0 1 1 0 0 2 0 main\nthread 2 4 0 0 0 1 1 0 0 2 -1 main.child\nthread 3 1 4 0 3 1 1 0 0 1 0 unknown\nthread 4 0 0 0 0 1 1 0 1 0 0 main.child\nmutex 0 1\nfd 3 3 7 1\nfd 5 0 0 1\nend\n",
        line: 4,
    },
    Refused {
        script: SCRIPT,
        text: "pthsnap 1\nsteps 16\nplace open\nnow 50\nturn 5\nfavour 1\nnamed 0\nthread 1 3 0 0 0 1 1 0 0 2 0 main\nthread 2 4 0 0 0 1 1 0 0 2 -1 main.child\nthread 3 1 4 0 3 1 1 0 0 1 0 unknown\nthread 4 0 0 0 0 1 1 0 1 0 0 main.child\nmutex 0 1\nfd 3 3 7 1\nfd 5 0 0 1\nend\n",
        line: 8,
    },
    Refused {
        script: SCRIPT,
        text: "pthsnap 1\nsteps 2\nplace open\nnow 60\nturn 5\nfavour 1\nnamed 0\nthread 1 3 0 0 0 1 1 0 0 2 0 main\nthread 2 4 0 0 0 1 1 0 0 2 -1 main.child\nthread 3 1 4 0 3 1 1 0 0 1 0 unknown\nthread 4 0 0 0 0 1 1 0 1 0 0 main.child\nmutex 0 1\nfd 3 3 7 1\nfd 5 0 0 1\nend\n",
        line: 3,
    },
    Refused {
        script: SCRIPT,
        text: "pthsnap 1\nsteps 9\nplace open\nnow 60\nturn 5\nfavour 1\nnamed 0\nthread 1 3 0 0 0 1 1 0 0 2 0 main\nthread 2 4 0 0 0 1 1 0 0 2 -1 main.child\nthread 3 1 4 0 3 1 1 0 0 1 0 unknown\nthread 4 0 0 0 0 1 1 0 1 0 0 main.child\nmutex 0 1\nfd 3 3 7 1\nfd 5 0 0 1\nend\n",
        line: 4,
    },
    Refused {
        script: SCRIPT,
        text: "pthsnap 1\nsteps 15\nplace open\nnow 60\nturn 5\nfavour 1\nnamed 0\nthread 1 3 0 0 0 1 1 0 0 2 0 main\nthread 2 4 0 0 0 1 1 0 0 2 -1 main.child\nthread 3 1 4 0 3 1 1 0 0 1 0 unknown\nthread 4 0 0 0 0 1 1 0 1 0 0 main.child\nmutex 0 1\nfd 3 3 7 1\nfd 5 0 0 1\nend\n",
        line: 4,
    },
    Refused {
        script: SCRIPT,
        text: "pthsnap 1\nsteps 17\nplace open\nnow 60\nturn 5\nfavour 1\nnamed 0\nthread 1 3 0 0 0 1 1 0 0 2 0 main\nthread 2 4 0 0 0 1 1 0 0 2 -1 main.child\nthread 3 1 4 0 3 1 1 0 0 1 0 unknown\nthread 4 0 0 0 0 1 1 0 1 0 0 main.child\nmutex 0 1\nfd 3 3 7 1\nfd 5 0 0 1\nend\n",
        line: 3,
    },
    Refused {
        script: SCRIPT,
        text: "pthsnap 1\nsteps 18\nplace open\nnow 60\nturn 5\nfavour 1\nnamed 0\nthread 1 3 0 0 0 1 1 0 0 2 0 main\nthread 2 4 0 0 0 1 1 0 0 2 -1 main.child\nthread 3 1 4 0 3 1 1 0 0 1 0 unknown\nthread 4 0 0 0 0 1 1 0 1 0 0 main.child\nmutex 0 1\nfd 3 3 7 1\nfd 5 0 0 1\nend\n",
        line: 4,
    },
    Refused {
        script: SCRIPT,
        text: "pthsnap 1\nsteps 19\nplace open\nnow 60\nturn 5\nfavour 1\nnamed 0\nthread 1 3 0 0 0 1 1 0 0 2 0 main\nthread 2 4 0 0 0 1 1 0 0 2 -1 main.child\nthread 3 1 4 0 3 1 1 0 0 1 0 unknown\nthread 4 0 0 0 0 1 1 0 1 0 0 main.child\nmutex 0 1\nfd 3 3 7 1\nfd 5 0 0 1\nend\n",
        line: 2,
    },
    Refused {
        script: SCRIPT,
        text: "pthsnap 1\nsteps 1000000001\nplace open\nnow 60\nturn 5\nfavour 1\nnamed 0\nthread 1 3 0 0 0 1 1 0 0 2 0 main\nthread 2 4 0 0 0 1 1 0 0 2 -1 main.child\nthread 3 1 4 0 3 1 1 0 0 1 0 unknown\nthread 4 0 0 0 0 1 1 0 1 0 0 main.child\nmutex 0 1\nfd 3 3 7 1\nfd 5 0 0 1\nend\n",
        line: 2,
    },
    Refused {
        script: SCRIPT,
        text: "pthsnap 1\nsteps 01\nplace open\nnow 60\nturn 5\nfavour 1\nnamed 0\nthread 1 3 0 0 0 1 1 0 0 2 0 main\nthread 2 4 0 0 0 1 1 0 0 2 -1 main.child\nthread 3 1 4 0 3 1 1 0 0 1 0 unknown\nthread 4 0 0 0 0 1 1 0 1 0 0 main.child\nmutex 0 1\nfd 3 3 7 1\nfd 5 0 0 1\nend\n",
        line: 2,
    },
    Refused {
        script: SCRIPT,
        text: "pthsnap 1\nsteps 16\nplace step\nnow 60\nturn 5\nfavour 1\nnamed 0\nthread 1 3 0 0 0 1 1 0 0 2 0 main\nthread 2 4 0 0 0 1 1 0 0 2 -1 main.child\nthread 3 1 4 0 3 1 1 0 0 1 0 unknown\nthread 4 0 0 0 0 1 1 0 1 0 0 main.child\nmutex 0 1\nfd 3 3 7 1\nfd 5 0 0 1\nend\n",
        line: 5,
    },
    Refused {
        script: SCRIPT,
        text: "pthsnap 1\nsteps 16\nplace open\nnow 60\nturn 5\nfavour 1\nnamed 0\nthread 1 3 0 0 0 1 1 0 0 2 0 main\nthread 2 4 0 0 0 1 1 0 0 2 -1 main.child\nthread 3 1 4 0 4 1 1 0 0 1 0 unknown\nthread 4 0 0 0 0 1 1 0 1 0 0 main.child\nmutex 0 1\nfd 3 3 7 1\nfd 5 0 0 1\nend\n",
        line: 10,
    },
    Refused {
        script: SCRIPT,
        text: "pthsnap 1\nsteps 16\nplace open\nnow 60\nturn 5\nfavour 1\nnamed 0\nthread 1 3 0 0 0 1 1 0 0 2 0 main\nthread 2 4 0 0 0 1 1 1 0 2 -1 main.child\nthread 3 1 4 0 3 1 1 0 0 1 0 unknown\nthread 4 0 0 0 0 1 1 0 1 0 0 main.child\nmutex 0 1\nfd 3 3 7 1\nfd 5 0 0 1\nend\n",
        line: 9,
    },
    Refused {
        script: SCRIPT,
        text: "pthsnap 1\nsteps 16\nplace open\nnow 60\nturn 5\nfavour 1\nnamed 0\nthread 1 3 0 0 0 1 1 0 0 2 0 main\nthread 2 4 0 0 0 1 1 0 0 2 -1 main.child\nthread 3 1 4 0 3 1 1 0 0 1 0 unknown\nthread 4 0 0 0 0 1 1 0 1 0 0 main.child\nmutex 0 1\nfd 3 3 7 1\nend\n",
        line: 14,
    },
    Refused {
        script: SCRIPT,
        text: "pthsnap 1\nsteps 16\nplace open\nnow 60\nturn 5\nfavour 1\nnamed 0\nthread 1 3 0 0 0 1 1 0 0 2 0 main\nthread 2 4 0 0 0 1 1 0 0 2 -1 main.child\nthread 3 1 4 0 3 1 1 0 0 1 0 unknown\nthread 4 0 0 0 0 1 1 0 1 0 0 main.child\nmutex 0 1\nfd 3 3 7 1\nfd 5 0 0 1\nend",
        line: 15,
    },
    Refused {
        script: SCRIPT,
        text: "pthsnap 1\nsteps 16\nplace open\nnow 60\nturn 5\nfavour 1\nnamed 0\nthread 1 3 0 0 0 1 1 0 0 2 0 main\nthread 2 4 0 0 0 1 1 0 0 2 -1 main.child\nthread 3 1 4 0 3 1 1 0 0 1 0 unknown\nthread 4 0 0 0 0 1 1 0 1 0 0 main.child\nmutex 0 1\nfd 3 3 7 1\nfd 5 0 0 1\nend\nmore\n",
        line: 16,
    },
    Refused {
        script: SCRIPT,
        text: "",
        line: 1,
    },
    Refused {
        script: SCRIPT,
        text: "pthsnap 1",
        line: 1,
    },
    Refused {
        script: SCRIPT,
        text: "pthsnap 1\n",
        line: 2,
    },
    Refused {
        script: JOINED,
        text: "pthsnap 1\nsteps 2\nplace open\nnow 2\nturn 1\nfavour 1\nnamed 0\nthread 1 3 0 0 0 1 1 0 0 1 0 main\nthread 2 0 0 0 0 1 1 0 0 0 0 main.child\nend\n",
        line: 4,
    },
    Refused {
        script: JOINED,
        text: "pthsnap 1\nsteps 3\nplace open\nnow 1\nturn 1\nfavour 1\nnamed 0\nthread 1 3 0 0 0 1 1 0 0 1 0 main\nthread 2 0 0 0 0 1 1 0 0 0 0 main.child\nend\n",
        line: 4,
    },
    Refused {
        script: JOINED,
        text: "pthsnap 1\nsteps 9\nplace open\nnow 1\nturn 1\nfavour 1\nnamed 0\nthread 1 3 0 0 0 1 1 0 0 1 0 main\nthread 2 0 0 0 0 1 1 0 0 0 0 main.child\nend\n",
        line: 2,
    },
    Refused {
        script: JOINED,
        text: "pthsnap 1\nsteps 1\nplace open\nnow 1\nturn 1\nfavour 1\nnamed 0\nthread 1 3 0 0 0 1 1 0 0 1 0 main\nthread 2 0 0 0 0 1 1 0 0 0 0 main.child\nend\n",
        line: 3,
    },
];

/// Makes so many turns.
fn turns(machine: &mut Machine<Script>, n: u32, marks: &mut Marks) -> Outcome
    requires { machine.old.turn.outcome ≡ Outcome.Running }
    ensures { result ≡ machine.new.turn.outcome }
{
    let mut outcome = Outcome::Running;
    for _ in 0..n {
        match outcome {
            Outcome::Running => outcome = turn(machine, 1000, marks),
            _ => return outcome,
        }
    }
    outcome
}

/// Goes on to a place.
fn go_to(machine: &mut Machine<Script>, at: At, marks: &mut Marks) -> Outcome
    requires { machine.old.turn.outcome ≡ Outcome.Running }
    ensures { result ≡ machine.new.turn.outcome }
{
    match at {
        At::Turns(n) => turns(machine, n, marks),
        At::Steps(n) => steps(machine, n, marks),
        At::Moved(n) => {
            match turns(machine, n, marks) {
                Outcome::Running => move_time(machine, marks),
                outcome => outcome,
            }
        }
    }
}

/// The text of a machine, none if its run is over.
fn text_of(
    alloc: Global,
    machine: &Machine<Script>,
    outcome: Outcome,
) -> Result<Option<Bytes>, OutOfMemory>
    requires { outcome ≡ machine.now.turn.outcome }
{
    match outcome {
        Outcome::Running => Ok(Some(save(alloc, machine)?)),
        _ => Ok(None),
    }
}

/// The text that is saved at a place of a script's run, none if the run ends before.
fn saved_at(alloc: Global, script: &str, at: At) -> Result<Option<Bytes>, ReadErr> {
    let mut machine = machine_of(alloc, script.as_bytes())?;
    let mut marks = Marks::new(alloc);
    let outcome = go_to(&mut machine, at, &mut marks);
    Ok(text_of(alloc, &machine, outcome)?)
}

/// The line at which a text is refused, 0 if it is taken up.
fn refusal(alloc: Global, script: &str, text: &[u8]) -> u32 {
    match load(alloc, script.as_bytes(), text) {
        Ok(_) => 0,
        Err(LoadErr::Refused { line }) => line,
        Err(_) => u32::MAX,
    }
}

/// What is saved at a place is its text, and is taken up.
fn is_saved(rt: &impl Abort, alloc: Global, row: &Saved) -> Result<(), Fail> {
    let saved = saved_at(alloc, row.script, row.at)?;
    match &saved {
        Some(text) => same_lines(rt, text.as_slice(), row.text),
        None => same(rt, 0, 1),
    }
    same(
        rt,
        u64::from(refusal(alloc, row.script, row.text.as_bytes())),
        0,
    );
    Ok(())
}

fn are_saved(rt: &impl Abort, alloc: Global, rows: &[Saved]) -> Result<(), Fail> {
    for row in rows {
        is_saved(rt, alloc, row)?;
    }
    Ok(())
}

#[test]
fn places_have_their_texts(rt: HostRuntime) -> Result<(), Fail> {
    are_saved(&rt, rt.alloc(), &SAVED)
}

fn are_refused(rt: &impl Abort, alloc: Global, rows: &[Refused]) {
    for row in rows {
        let line = refusal(alloc, row.script, row.text.as_bytes());
        same(rt, u64::from(line), u64::from(row.line));
    }
}

#[test]
fn other_texts_are_refused_at_a_line(rt: HostRuntime) -> Result<(), Fail> {
    are_refused(&rt, rt.alloc(), &REFUSED);
    Ok(())
}

/// A run that is taken up tells the lines that follow.
fn goes_on(rt: &impl Abort, alloc: Global, saved: &Saved, lines: &str) -> Result<(), Fail> {
    let loaded = load(alloc, saved.script.as_bytes(), saved.text.as_bytes());
    let Ok(mut machine) = loaded else {
        same(rt, 0, 1);
        return Ok(());
    };
    let mut marks = Marks::new(alloc);
    let outcome = steps(&mut machine, 100, &mut marks);
    let mut told = Text::new(alloc);
    add_lines(&marks, &mut told)?;
    same_lines(rt, told.as_slice(), lines);
    has_ended(rt, outcome);
    Ok(())
}

#[test]
fn a_run_that_is_taken_up_goes_on(rt: HostRuntime) -> Result<(), Fail> {
    goes_on(
        &rt,
        rt.alloc(),
        &SAVED[4],
        "turn 2 at 1 t2 rank 5\nt2 ends 9\nwake t1 rank 1\nturn 3 at 2 t1 rank 1\nt1 join 2 = 9\nt1 note 9\nt1 ends 0\n",
    )
}

/// All threads that the system holds wait for one moment.
const MANY: &str =
    "pth 1\nthread 0\nlabel 1\nspawn 1 0 0\nadd a1 1\ngoto 1 a1 lt 4095\nexit 0\nend\nthread 1\na1 = ev_time 100000\nwait a1\nend\n";

/// What is saved at a place is taken up.
fn is_taken_up(rt: &impl Abort, alloc: Global, script: &str, at: At) -> Result<(), Fail> {
    match saved_at(alloc, script, at)? {
        Some(text) => same(rt, u64::from(refusal(alloc, script, text.as_slice())), 0),
        None => same(rt, 0, 1),
    }
    Ok(())
}

#[test]
fn many_threads_are_saved(rt: HostRuntime) -> Result<(), Fail> {
    is_taken_up(&rt, rt.alloc(), MANY, At::Turns(2000))
}

#[test]
fn a_refused_input_is_told_with_its_line(rt: HostRuntime) -> Result<(), Fail> {
    let loaded = load(rt.alloc(), b"pth 1\nthread 0\nnap 010\nend\n", b"");
    let told = matches!(
        loaded,
        Err(LoadErr::Input {
            line: 3,
            rule: Some(Rule::Operand)
        })
    );
    same(&rt, u64::from(told), 1);
    Ok(())
}
