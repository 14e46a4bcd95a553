//! The operands of a call line, by their places.
//!
//! Where an operand of another form is at a place, or none, which no line has that was read, a fixed one stands for it.

ghost use Rattle.std.specs.Prelude.{◌≡◌, Some, IfOk, slice_get, option_map};
ghost use Rattle.pth_operand.specs.Values.{Scope, scope};
ghost use Rattle.pth_line.specs.CallLines.{arg_in};
ghost use Rattle.pth_line.specs.CallOf as at;

use crate::argument::{Argument, Arguments};
use pth_base::attr::AttrField;
use pth_base::bytes::Bytes;
use pth_base::ids::FdSet;
use pth_base::memory::OutOfMemory;
use pth_base::name::Name;
use pth_base::thread::ThreadState;
use pth_operand::cells::Cells;
use pth_operand::frame::Frame;
use pth_spelling::direction::Direction;
use pth_spelling::keyword::{NewEventWord, QueryWord};
use std::alloc::Global;

impl Argument {
    /// The number, in a thread that holds these.
    #[inline(always)]
    fn number(&self, frame: &Frame, cells: &Cells) -> i64
        ensures { result ≡ at.the_number (Some (arg_in (scope frame.now cells.now) self.now)) }
    {
        match self {
            Argument::Number(x) => x.number(frame, cells),
            _ => 0,
        }
    }

    /// The number, or none, in a thread that holds these.
    fn maybe_number(&self, frame: &Frame, cells: &Cells) -> Option<i64>
        ensures { result ≡ at.the_maybe_number (Some (arg_in (scope frame.now cells.now) self.now)) }
    {
        match self {
            Argument::MaybeNumber(Some(x)) => Some(x.number(frame, cells)),
            Argument::MaybeNumber(None) => None,
            _ => None,
        }
    }

    /// The name.
    fn name(&self) -> Name
        ensures { (s : Scope) → result ≡ at.the_name (Some (arg_in s self.now)) }
    {
        match self {
            Argument::Name(name) => name.copy(),
            _ => Name::cut("_"),
        }
    }

    /// The name, or none.
    fn maybe_name(&self) -> Option<Name>
        ensures { (s : Scope) → result ≡ at.the_maybe_name (Some (arg_in s self.now)) }
    {
        match self {
            Argument::MaybeName(Some(name)) => Some(name.copy()),
            Argument::MaybeName(None) => None,
            _ => None,
        }
    }

    /// The set of descriptors.
    fn set(&self) -> FdSet
        ensures { (s : Scope) → result ≡ at.the_set (Some (arg_in s self.now)) }
    {
        match self {
            Argument::Set(set) => *set,
            _ => FdSet(0),
        }
    }

    /// The goals.
    fn goals(&self) -> u8
        ensures { (s : Scope) → result ≡ at.the_goals (Some (arg_in s self.now)) }
    {
        match self {
            Argument::Goals(goals) => *goals,
            _ => 1,
        }
    }

    /// Whether all events of a ring are meant.
    fn which(&self) -> bool
        ensures { (s : Scope) → result ≡ at.the_which (Some (arg_in s self.now)) }
    {
        match self {
            Argument::Which(all) => *all,
            _ => false,
        }
    }

    /// Whether a lock is taken to write.
    fn mode(&self) -> bool
        ensures { (s : Scope) → result ≡ at.the_mode (Some (arg_in s self.now)) }
    {
        match self {
            Argument::Mode(write) => *write,
            _ => false,
        }
    }

    /// The direction of a walk.
    fn walk(&self) -> Direction
        ensures { (s : Scope) → result ≡ at.the_walk (Some (arg_in s self.now)) }
    {
        match self {
            Argument::Walk(walk) => *walk,
            _ => Direction {
                forward: true,
                until_occurred: false,
            },
        }
    }

    /// The field of an attribute object.
    fn field(&self) -> AttrField
        ensures { (s : Scope) → result ≡ at.the_field (Some (arg_in s self.now)) }
    {
        match self {
            Argument::Field(field) => *field,
            _ => AttrField::Prio,
        }
    }

    /// The state of a thread.
    fn state(&self) -> ThreadState
        ensures { (s : Scope) → result ≡ at.the_state (Some (arg_in s self.now)) }
    {
        match self {
            Argument::State(state) => *state,
            _ => ThreadState::New,
        }
    }

    /// What the scheduler is asked.
    fn query(&self) -> QueryWord
        ensures { (s : Scope) → result ≡ at.the_query (Some (arg_in s self.now)) }
    {
        match self {
            Argument::Query(query) => *query,
            _ => QueryWord::Threads,
        }
    }

    /// The kind of an event.
    fn event(&self) -> NewEventWord
        ensures { (s : Scope) → result ≡ at.the_event (Some (arg_in s self.now)) }
    {
        match self {
            Argument::Event(kind) => *kind,
            _ => NewEventWord::Time,
        }
    }

    /// The bytes, in a thread that holds these.
    fn bytes(&self, alloc: Global, frame: &Frame) -> Result<Bytes, OutOfMemory>
        ensures { IfOk result (λ b. (s : Scope) → s.frame ≡ frame.now → b ≡ at.the_bytes (Some (arg_in s self.now))) }
    {
        match self {
            Argument::Bytes(bytes) => bytes.copy(frame),
            _ => Bytes::from_slice(alloc, &[]),
        }
    }
}

/// The operands of a call line in a thread that stands at it.
#[derive(Clone, Copy)]
pub(crate) struct Places<'a> {
    pub arguments: &'a Arguments,
    pub frame: &'a Frame,
    pub cells: &'a Cells,
}

impl<'a> Places<'a> {
    ghost use Rattle.pth_line.specs.Placed.{placed};

    /// The operand at a place.
    #[inline(always)]
    #[tactic(auto, using(crate::proofs::Placed::there))]
    fn at(self, place: usize) -> Option<&'a Argument>
        ensures { option_map (λ a. arg_in (scope self.entry.frame.now self.entry.cells.now) a.now) result ≡ slice_get (placed self.entry) place }
    {
        self.arguments.get(place)
    }

    /// The number at a place.
    #[inline(always)]
    pub fn number(self, place: usize) -> i64
        ensures { result ≡ at.number (placed self.entry) place }
    {
        match self.at(place) {
            Some(argument) => argument.number(self.frame, self.cells),
            None => 0,
        }
    }

    /// The number, or none, at a place.
    pub fn maybe_number(self, place: usize) -> Option<i64>
        ensures { result ≡ at.maybe_number (placed self.entry) place }
    {
        match self.at(place) {
            Some(argument) => argument.maybe_number(self.frame, self.cells),
            None => None,
        }
    }

    /// The name at a place.
    pub fn name(self, place: usize) -> Name
        ensures { result ≡ at.name (placed self.entry) place }
    {
        match self.at(place) {
            Some(argument) => argument.name(),
            None => Name::cut("_"),
        }
    }

    /// The name, or none, at a place.
    pub fn maybe_name(self, place: usize) -> Option<Name>
        ensures { result ≡ at.maybe_name (placed self.entry) place }
    {
        match self.at(place) {
            Some(argument) => argument.maybe_name(),
            None => None,
        }
    }

    /// The set of descriptors at a place.
    pub fn set(self, place: usize) -> FdSet
        ensures { result ≡ at.set (placed self.entry) place }
    {
        match self.at(place) {
            Some(argument) => argument.set(),
            None => FdSet(0),
        }
    }

    /// The goals at a place.
    pub fn goals(self, place: usize) -> u8
        ensures { result ≡ at.goals (placed self.entry) place }
    {
        match self.at(place) {
            Some(argument) => argument.goals(),
            None => 1,
        }
    }

    /// Whether all events of a ring are meant at a place.
    pub fn which(self, place: usize) -> bool
        ensures { result ≡ at.which (placed self.entry) place }
    {
        match self.at(place) {
            Some(argument) => argument.which(),
            None => false,
        }
    }

    /// Whether a lock is taken to write at a place.
    pub fn mode(self, place: usize) -> bool
        ensures { result ≡ at.mode (placed self.entry) place }
    {
        match self.at(place) {
            Some(argument) => argument.mode(),
            None => false,
        }
    }

    /// The direction of a walk at a place.
    pub fn walk(self, place: usize) -> Direction
        ensures { result ≡ at.walk (placed self.entry) place }
    {
        match self.at(place) {
            Some(argument) => argument.walk(),
            None => Direction {
                forward: true,
                until_occurred: false,
            },
        }
    }

    /// The field of an attribute object at a place.
    pub fn field(self, place: usize) -> AttrField
        ensures { result ≡ at.field (placed self.entry) place }
    {
        match self.at(place) {
            Some(argument) => argument.field(),
            None => AttrField::Prio,
        }
    }

    /// The state of a thread at a place.
    pub fn state(self, place: usize) -> ThreadState
        ensures { result ≡ at.state (placed self.entry) place }
    {
        match self.at(place) {
            Some(argument) => argument.state(),
            None => ThreadState::New,
        }
    }

    /// What the scheduler is asked at a place.
    pub fn query(self, place: usize) -> QueryWord
        ensures { result ≡ at.query (placed self.entry) place }
    {
        match self.at(place) {
            Some(argument) => argument.query(),
            None => QueryWord::Threads,
        }
    }

    /// The kind of an event at a place.
    pub fn event(self, place: usize) -> NewEventWord
        ensures { result ≡ at.event (placed self.entry) place }
    {
        match self.at(place) {
            Some(argument) => argument.event(),
            None => NewEventWord::Time,
        }
    }

    /// The bytes at a place.
    pub fn bytes(self, alloc: Global, place: usize) -> Result<Bytes, OutOfMemory>
        ensures { IfOk result (λ bytes. bytes ≡ at.bytes (placed self.entry) place) }
    {
        match self.at(place) {
            Some(argument) => argument.bytes(alloc, self.frame),
            None => Bytes::from_slice(alloc, &[]),
        }
    }
}
