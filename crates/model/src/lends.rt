// One object of a world, lent; a byte that comes in at a line.
ghost use Rattle.std.specs.Borrow.{sem, LendsSo};
ghost use Rattle.std.specs.Prelude.{◌≡◌, IfNone, OnOk};
ghost use Rattle.std.specs.Option.{option_map};
ghost use Rattle.model.specs.contracts.objects.World.{the_row as worlds};
ghost use Rattle.model.specs.contracts.objects.Object.{the_row as things};
ghost use Rattle.model.specs.Calls as calls;
ghost use Rattle.model.specs.Plain as plain;

use crate::objects::{Fault, Object, World};

impl World {
    // Callers say `if let Some(it) = self.get_mut(o)`, or `self.get_mut(o).ok_or(Refused)?`. One method
    // that takes the change as a closure was tried: each of its callers then wants a proof by hand,
    // where these want none. Where there is no such object the whole World stays, spare capacity of its
    // vectors too: a clause could not say so if World had an impl Model.
    pub fn get_mut(&mut self, o: usize) -> Option<&mut Object>
        ensures* follows { sem 𝓛 (LendsSo worlds things self.entry result (λ w x. plain.plain w ≡ plain.with_object (plain.plain self.old) o (plain.thing x)) (λ w. w ≡ self.old)) }
        ensures finds { plain.found (option_map (λ x. x.now) result) ≡ plain.object (plain.plain self.old) o }
        ensures past { IfNone result ((x : plain.Thing) → plain.plain self.old ≡ plain.with_object (plain.plain self.old) o x) }
    {
        self.objects.get_mut(o)
    }

    // A writer by number; `get_mut` says why.
    pub fn come_in(&mut self, o: usize, b: u8) -> Result<(), Fault>
        ensures { OnOk result (plain.plain self.new ≡ plain.with_object (plain.plain self.old) o (calls.comes_in b (plain.object (plain.plain self.old) o))) }
    {
        if let Some(it) = self.get_mut(o) {
            it.come_in(b)?;
        }
        Ok(())
    }
}
