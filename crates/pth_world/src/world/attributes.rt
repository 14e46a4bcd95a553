//! The attribute objects of a world.

ghost use Rattle.std.specs.Prelude.{◌≡◌, ◌<◌, OnOk, OnErr, false};
ghost use Rattle.std.specs.Borrow.{Lends, sem};
ghost use Rattle.pth_model.specs.AttributeHandling.{object, sets_value};
ghost use Rattle.pth_model.specs.State.{Control};
ghost use Rattle.pth_numbered.specs.Operands.{named};
ghost use Rattle.pth_threads.specs.Attributes.{object_of, of_answer, set_answer, Answers, MakesObject};
ghost use Rattle.pth_threads.specs.contracts.attrs.Attrs.{the_row as attrs_row};
ghost use Rattle.pth_threads.specs.declared.attribute.Attribute.TheVariants.{Bound};
ghost use Rattle.pth_world.specs.Frame.{Frame};
ghost use Rattle.pth_world.specs.Numbering.{no_numbers};
ghost use Rattle.pth_world.specs.Shows.{Shows};
ghost use Rattle.pth_world.specs.Sound.{IsSound};
ghost use Rattle.pth_world.specs.WellFormed.{WellFormed};
ghost use Rattle.pth_world.specs.World.{entry_in};
ghost use Rattle.pth_world.specs.contracts.world.World.{the_row};

use crate::world::World;
use pth_base::attr::AttrValue;
use pth_base::errno::Errno;
use pth_base::ids::{AttrId, Tid};
use pth_base::program::Program;
use pth_base::refusal::Refusal;
use pth_threads::attrs::Attrs;

impl<P: Program> World<P> {
    /// The attribute objects (`pth_attr_t`).
    pub fn attrs(&self) -> &Attrs
        ensures { result.now ≡ self.now.attributes }
    {
        &self.attributes
    }

    /// The attribute objects, for changes that touch no thread.
    pub fn attrs_mut(&mut self) -> &mut Attrs
        ensures* writes_back { sem 𝓛 (Lends (the_row P.row P.State.row P.Shared.row P.Program) attrs_row self.entry result
            (λ x. record self.old { attributes = x })) }
        ensures value { result.now ≡ self.old.attributes }
    {
        &mut self.attributes
    }

    /// An object that is bound to a thread (`pth_attr_of`): ESRCH where the thread is not in the system, EAGAIN where there are
    /// 4096 objects.
    pub fn attr_of(&mut self, t: Tid) -> Result<AttrId, Refusal>
        requires { self.old.attributes.objects.made < 4294967295 }
        ensures answer { Answers (of_answer (entry_in self.old.threads t.0) (object_of self.old.attributes)
            self.old.attributes.objects.made) result }
        ensures makes { OnOk result (MakesObject self.old.attributes self.new.attributes (Bound t)) }
        ensures refused { OnErr result (self.new ≡ self.old) }
        ensures same { self.new ≡ record self.old { attributes = self.new.attributes } }
    {
        self.attributes.of(t, &self.threads)
    }

    /// Sets a field of an object, or of the thread to which it is bound (`pth_attr_set`): EINVAL where there is no such object,
    /// ESRCH where its thread is gone, EPERM for what can't be set, EINVAL for a value out of range. A changed priority counts
    /// from the thread's next entry into a queue.
    pub fn attr_set(&mut self, a: i64, v: &AttrValue) -> Result<(), Errno>
        ensures answer { result
            ≡ set_answer self.old.attributes.top (entry_in self.old.threads) (named (object_of self.old.attributes) a) v.now }
        ensures shows { IsSound self.old.threads → OnOk result ((k : Control P P.State P.Shared) → Shows self.old k
            → Shows self.new (sets_value a v.now (object k a) k)) }
        ensures frame { WellFormed self.old → OnOk result (Frame self.old self.new no_numbers self.old.scheduler.running false) }
        ensures store { OnOk result (self.new.store ≡ self.old.store) }
        ensures refused { OnErr result (self.new ≡ self.old) }
    {
        self.attributes.set(a, v, &mut self.threads)
    }
}
