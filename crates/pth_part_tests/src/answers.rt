//! What a thread of a script keeps of a message.

use crate::comparison::same_bytes;
use crate::lines::lines_of;
use pth_base::answer::Answer;
use pth_base::ids::{BodyId, MsgId, Tid};
use pth_base::mark::Mark;
use pth_base::marks::Marks;
use pth_base::memory::OutOfMemory;
use pth_base::program::Program;
use pth_script::read::read;
use std::alloc::Global;
use std::process::Abort;
use std::test::Fail;

/// The first call is answered, and the others tell what was kept: the register, the error, the bytes and the message.
const SCRIPT: &str = "pth 1\nthread 0\na2 = self\nnote a2\nnote err\nwrite 0 buf\nreply 0\nend\n";

fn main_of<P: Program>(alloc: Global, program: &P) -> Result<P::State, OutOfMemory> {
    let _bodies = program.bodies();
    program.start(alloc, BodyId(0), 0)
}

/// The calls of main, as ones that wait. The first has this answer.
fn calls_of<P: Program>(alloc: Global, program: &P, answer: &Answer) -> Result<Marks, OutOfMemory> {
    let mut marks = Marks::new(alloc);
    let mut shared = program.shared(alloc)?;
    let mut state = main_of(alloc, program)?;
    let none = Answer::None;
    for answer in [&none, answer, &none, &none, &none] {
        let call = program.step(alloc, &mut state, &mut shared, answer)?;
        marks.push(Mark::Waits { tid: Tid(1), call })?;
    }
    Ok(marks)
}

/// Compares the calls of a thread whose first call has this answer.
fn is_kept(rt: &impl Abort, alloc: Global, answer: &Answer, wanted: &str) -> Result<(), Fail> {
    let (script, _, _) = read(alloc, SCRIPT.as_bytes())?;
    let marks = calls_of(alloc, &script, answer)?;
    let lines = lines_of(alloc, marks.as_slice())?;
    same_bytes(rt, lines.as_slice(), wanted);
    Ok(())
}

/// Messages, and the calls after them. A number past those of a register stays the greatest.
static MESSAGES: [(MsgId, &str); 2] = [
    (
        MsgId(12),
        "t1 self waits\nt1 note -8 waits\nt1 note 0 waits\nt1 write 0 hex: waits\nt1 reply 12 0 waits\n",
    ),
    (
        MsgId(18446744073709551615),
        "t1 self waits\nt1 note -8 waits\nt1 note 0 waits\nt1 write 0 hex: waits\nt1 reply 9223372036854775807 0 waits\n",
    ),
];

fn are_kept(rt: &impl Abort, alloc: Global, rows: &[(MsgId, &str)]) -> Result<(), Fail> {
    for (id, wanted) in rows {
        let answer = Answer::Msg { id: *id, value: -8 };
        is_kept(rt, alloc, &answer, wanted)?;
    }
    Ok(())
}

#[test]
fn messages_are_kept(rt: HostRuntime) -> Result<(), Fail> {
    are_kept(&rt, rt.alloc(), &MESSAGES)
}
