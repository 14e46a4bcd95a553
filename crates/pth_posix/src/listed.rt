//! Lists of POSIX calls as a program.

ghost use Rattle.std.specs.Prelude.{◌≡◌, [], ◌∷◌, ◌++◌, ◌+◌, ◌<◌, ◌≤◌, ◌^◌, ◌↔◌, length, IfOk, OnOk, OnErr, OnSome, IsErr};
ghost use Rattle.std.specs.Option.{option_copied};
ghost use Rattle.pth_posix.specs.Listed.{call_at, number_told, with_call};

use crate::panswer::PAnswer;
use crate::pcall::PCall;
use crate::posix_program::PosixProgram;
use crate::series::Series;
use pth_base::act::Act;
use pth_base::ids::{BodyId, CheckId, HandlerId};
use pth_base::memory::OutOfMemory;
use std::alloc::Global;
use std::marker::Model;

/// The greatest number of lists.
const MOST_LISTS: usize = u32::MAX as usize;

/// A list for each body, from body 0 on, main's. A thread makes the calls of its list one after another, whatever they are answered,
/// and exits with 0 after the last. Its argument is not looked at.
///
/// Its threads share the answers that their steps got, in order, with the first of each thread, which is none. Check k holds for v if
/// the answer at k, from 0 on, is v: an error is minus its number, and the end of a timed wait is -1000. There are no acts.
#[derive(Drop)]
pub struct Listed {
    alloc: Global,
    lists: Vec<Series<PCall>>,
}

impl Model for Listed {
    ghost use Rattle.std.specs.Prelude.{◌≤◌, ◌^◌, ◌<◌, List, length};
    ghost use Rattle.pth_posix.specs.declared.pcall.PCall.{PCall};

    ghost Value = { List (List PCall) };

    ghost view = { λ s. s.lists.items };

    ghost invariant = { λ s. length s.lists.items < 2 ^ 32 };
}

/// Where a thread stands in its list: at a call from 0 on.
#[derive(Clone, Copy)]
pub struct ListPlace {
    body: u32,
    call: usize,
}

impl Listed {
    /// No list, which takes no memory.
    pub fn new(alloc: Global) -> Listed
        ensures { result ≡ [] }
    {
        Listed {
            alloc,
            lists: Vec::new(alloc),
        }
    }

    // The number of the next body. Want of memory exactly where 4,294,967,295 lists were made: a number of 32 bits counts no more.
    fn next_body(&self) -> Result<u32, OutOfMemory>
        ensures number { IfOk result (λ n. n ≡ length self.now) }
        ensures memory { IsErr result ↔ (length self.now ≡ 4294967295) }
    {
        let number = self.lists.len();
        if number == MOST_LISTS {
            return Err(OutOfMemory);
        }
        Ok(number as u32)
    }

    /// An empty list more, for the next body. There are at most 4,294,967,295 lists.
    pub fn body(&mut self) -> Result<BodyId, OutOfMemory>
        ensures ok { OnOk result (self.new ≡ self.old ++ [] ∷ []) }
        ensures number { IfOk result (λ b. b.0 ≡ length self.old) }
        ensures err { OnErr result (self.new ≡ self.old) }
        ensures most { length self.old ≡ 4294967295 → IsErr result }
    {
        let number = self.next_body()?;
        let list = Series::new(self.alloc);
        self.lists.push(list)?;
        Ok(BodyId(number))
    }

    /// Adds a call at the end of a body's list.
    pub fn push(&mut self, b: BodyId, call: PCall) -> Result<(), OutOfMemory>
        requires { b.0 < length self.old }
        ensures ok { OnOk result (self.new ≡ with_call b.0 call self.old) }
        ensures lists { length self.new ≡ length self.old }
        ensures err { OnErr result (self.new ≡ self.old) }
    {
        self.lists[b.0 as usize].push(call)
    }

    // The call at a place, and none after the last.
    fn call_at(&self, place: &ListPlace) -> Option<PCall>
        ensures call { result ≡ call_at self.now place.now }
        ensures next_fits { OnSome result (place.now.call + 1 < 2 ^ 64) }
    {
        self.lists
            .get(place.body as usize)?
            .get(place.call)
            .copied()
    }
}

// An answer as a number.
fn number_told(answer: &PAnswer) -> Option<i64>
    ensures { result ≡ number_told answer.now }
{
    match answer {
        PAnswer::None => None,
        PAnswer::Value(n) => Some(*n),
        PAnswer::Fail(e) => Some(-e.number()),
        PAnswer::TimedOut => Some(-1000),
    }
}

#[tactic(auto, unfolding(crate::specs::Listed::functions_of_lists))]
impl PosixProgram for Listed {
    ghost use Rattle.pth_posix.specs.Listed.{functions_of_lists};

    type State = ListPlace;

    type Shared = Series<PAnswer>;

    ghost posix_functions = { functions_of_lists };

    fn shared(&self, alloc: Global) -> Result<Series<PAnswer>, OutOfMemory> {
        Ok(Series::new(alloc))
    }

    fn bodies(&self) -> u32 {
        self.lists.len().max(1) as u32
    }

    fn start(&self, _alloc: Global, body: BodyId, _arg: i64) -> Result<ListPlace, OutOfMemory> {
        Ok(ListPlace {
            body: body.0,
            call: 0,
        })
    }

    fn step(
        &self,
        _alloc: Global,
        place: &mut ListPlace,
        answers: &mut Series<PAnswer>,
        answer: &PAnswer,
    ) -> Result<PCall, OutOfMemory> {
        answers.push(*answer)?;
        match self.call_at(place) {
            Some(call) => {
                place.call += 1;
                Ok(call)
            }
            None => Ok(PCall::Exit(0)),
        }
    }

    fn check(&self, check: CheckId, v: i64, answers: &Series<PAnswer>) -> bool {
        let answer = answers.get(check.0 as usize);
        match answer.and_then(number_told) {
            Some(n) => n == v,
            None => false,
        }
    }

    fn act(
        &self,
        _handler: HandlerId,
        _arg: i64,
        _index: u32,
        _answers: &mut Series<PAnswer>,
    ) -> Option<Act> {
        None
    }
}
