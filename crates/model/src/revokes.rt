// Revoke: what was made from a capability goes, and for a pool all that was cut from it.
ghost use Rattle.std.specs.Prelude.{◌≡◌, map, OnOk};
ghost use Rattle.rights.specs.declared.answers.Answer.TheVariants.{No, Done};
ghost use Rattle.model.specs.Plain as plain;
ghost use Rattle.model.specs.Sweeps as sweeps;

use crate::ends::CallError;
use crate::marks::LentMarks;
use crate::objects::{Capability, Fault, Object, World};

fn sweep_all(all: &mut Vec<Object>, marks: &LentMarks<'_>)
    ensures { map plain.thing all.new.items ≡ sweeps.at_each (sweeps.kept_at marks.now) 0 (map plain.thing all.old.items) }
{
    for (i, x) in all.iter_mut().enumerate() {
        x.sweep_at(marks, i);
    }
}

impl World {
    fn revoke_all(&mut self, c: Capability) -> Result<(), Fault>
        ensures { OnOk result (plain.plain self.new ≡ sweeps.revoked (plain.plain self.old) c) }
    {
        let marks = self.marks_for(c)?;
        sweep_all(&mut self.objects, &marks.lent());
        if let Some(it) = self.get_mut(c.object) {
            it.set_used(0);
        }
        Ok(())
    }

    pub fn revoke(&mut self, p: usize, s: u32) -> Result<(), CallError>
        ensures { plain.Comes result (λ _. plain.on (plain.plain self.new) Done) (plain.on (plain.plain self.new) No) (sweeps.revoke (plain.plain self.old) p s) }
    {
        let c = self.held(p, s)?;
        if matches!(self.get(c.object), Some(Object::Pool { .. })) && !c.rights.writes() {
            return Err(CallError::Refused);
        }
        self.revoke_all(c)?;
        Ok(())
    }
}
