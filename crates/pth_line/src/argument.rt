//! The operands of call lines.

ghost use Rattle.std.specs.Prelude.{◌≡◌, [], ◌∷◌, ◌++◌, IfOk, OnOk, slice_get};
ghost use Rattle.std.specs.Option.{option_copied};

use pth_base::attr::AttrField;
use pth_base::ids::FdSet;
use pth_base::memory::OutOfMemory;
use pth_base::name::Name;
use pth_base::thread::ThreadState;
use pth_operand::operand::{ByteOperand, Operand};
use pth_spelling::direction::Direction;
use pth_spelling::keyword::{NewEventWord, QueryWord};
use std::alloc::Global;
use std::marker::Model;

/// A name in memory of its own, so that an argument which is a number takes no room for a name.
#[derive(Drop)]
pub struct NameArgument {
    name: Box<Name>,
}

impl Model for NameArgument {
    ghost use Rattle.std.specs.Prelude.{ℕ, List};

    ghost Value = { List ℕ };

    ghost view = { λ n. n.name.value };
}

impl NameArgument {
    /// A name.
    pub fn new(alloc: Global, name: Name) -> Result<NameArgument, OutOfMemory>
        ensures { IfOk result (λ n. n ≡ name) }
    {
        Ok(NameArgument {
            name: Box::new(alloc, name)?,
        })
    }

    /// The name, which takes no memory.
    pub fn copy(&self) -> Name
        ensures { result ≡ self.now }
    {
        self.name.copy()
    }
}

/// An operand of a call line, by its form.
pub enum Argument {
    Number(Operand),
    MaybeNumber(Option<Operand>),
    Name(NameArgument),
    MaybeName(Option<NameArgument>),
    Set(FdSet),
    Bytes(ByteOperand),
    /// The sum of 1 for readable, 2 for writeable and 4 for exceptional.
    Goals(u8),
    /// Whether all events of a ring are meant.
    Which(bool),
    /// Whether a lock is taken to write.
    Mode(bool),
    Walk(Direction),
    Field(AttrField),
    State(ThreadState),
    Query(QueryWord),
    Event(NewEventWord),
}

// By hand, so that letting one go is one call in each proof.
impl Drop for Argument {
    fn drop(self) {
        match self {
            Argument::Number(_)
            | Argument::MaybeNumber(_)
            | Argument::Name(_)
            | Argument::MaybeName(_)
            | Argument::Set(_)
            | Argument::Bytes(_)
            | Argument::Goals(_)
            | Argument::Which(_)
            | Argument::Mode(_)
            | Argument::Walk(_)
            | Argument::Field(_)
            | Argument::State(_)
            | Argument::Query(_)
            | Argument::Event(_) => {}
        }
    }
}

/// The operands of a call line in their order. Each has a place, from 0 on.
pub struct Arguments {
    items: Vec<Argument>,
}

impl Model for Arguments {
    ghost use Rattle.std.specs.Prelude.{List};
    ghost use Rattle.pth_line.specs.declared.argument.Argument.{Argument};

    ghost Value = { List Argument };

    ghost view = { λ a. a.items.items };
}

// By hand, so that letting one go is one call in each proof.
impl Drop for Arguments {
    fn drop(self) {
        let Arguments { items: _ } = self;
    }
}

impl Arguments {
    /// No operand, with room for this many.
    pub fn with_room(alloc: Global, count: usize) -> Result<Arguments, OutOfMemory>
        ensures { IfOk result (λ arguments. arguments ≡ []) }
    {
        Ok(Arguments {
            items: Vec::with_capacity(alloc, count)?,
        })
    }

    /// Adds an operand at the end.
    pub fn push(&mut self, argument: Argument) -> Result<(), OutOfMemory>
        ensures { OnOk result (self.new ≡ self.old ++ argument ∷ []) }
    {
        self.items.push(argument)?;
        Ok(())
    }

    /// The operand at a place.
    #[inline(always)]
    pub fn get(&self, place: usize) -> Option<&Argument>
        ensures { option_copied result ≡ slice_get self.now place }
    {
        self.items.get(place)
    }
}
