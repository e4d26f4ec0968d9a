// What a call does to one object.
ghost use Rattle.std.specs.Prelude.{◌≡◌, suc, ◌&&◌, OnOk};
ghost use Rattle.std.specs.Option.{is_none, option_map};
ghost use Rattle.rights.specs.declared.answers.Answer.TheVariants.{No, Done};
ghost use Rattle.model.specs.Calls as calls;
ghost use Rattle.model.specs.Plain as plain;

use crate::ends::{CallError, Refused};
use crate::objects::{Capability, Fault, Object, World};

impl Object {
    pub fn slot(&self, s: u32) -> Option<Capability>
        ensures { result ≡ plain.slot_at (plain.thing self.now) s }
    {
        match self {
            Object::Table { slots, .. } => slots.get(s as usize).copied().flatten(),
            _ => None,
        }
    }

    // Whether the slot is there and empty.
    pub fn is_free(&self, s: u32) -> bool
        ensures { result ≡ (plain.has_at (plain.thing self.now) s && is_none (plain.slot_at (plain.thing self.now) s)) }
    {
        match self {
            Object::Table { slots, .. } => matches!(slots.get(s as usize), Some(None)),
            _ => false,
        }
    }

    pub fn put_slot(&mut self, s: u32, x: Option<Capability>)
        ensures { plain.thing self.new ≡ plain.put_at (plain.thing self.old) s x }
    {
        if let Object::Table { slots, .. } = self {
            if let Some(slot) = slots.get_mut(s as usize) {
                *slot = x;
            }
        }
    }

    pub fn say(&mut self, b: u8) -> Result<(), CallError>
        ensures { plain.Comes result (λ _. plain.left (plain.thing self.new) Done) (plain.left (plain.thing self.new) No) (calls.says b (plain.thing self.old)) }
    {
        let Object::Line { shown, .. } = self else {
            return Err(CallError::Refused);
        };
        shown.push(b)?;
        Ok(())
    }

    pub fn come_in(&mut self, b: u8) -> Result<(), Fault>
        ensures { OnOk result (plain.thing self.new ≡ calls.comes_in b (plain.thing self.old)) }
    {
        if let Object::Line { heard, .. } = self {
            if heard.len() < 1024 {
                heard.push_back(b)?;
            }
        }
        Ok(())
    }

    pub fn hear(&mut self) -> Result<u8, Refused>
        ensures { plain.left (plain.thing self.new) (plain.heard_or_no result) ≡ calls.hears (plain.thing self.old) }
    {
        let Object::Line { heard, .. } = self else {
            return Err(Refused);
        };
        heard.pop_front().ok_or(Refused)
    }
}

// Readers by an object's number. Each says what a number that names nothing gives. One that lends the
// object for any number was tried, but no Gone can be lent then, since its type owns memory.
impl World {
    pub fn get(&self, o: usize) -> Option<&Object>
        ensures { plain.found (option_map (λ x. x.now) result) ≡ plain.object (plain.plain self.now) o }
    {
        self.objects.get(o)
    }

    pub fn table_of(&self, p: usize) -> Option<usize>
        ensures { result ≡ plain.table_of (plain.object (plain.plain self.now) p) }
    {
        match self.get(p)? {
            Object::Thread(t) => t.table,
            _ => None,
        }
    }

    pub fn slot(&self, p: usize, s: u32) -> Option<Capability>
        ensures { result ≡ plain.slot (plain.plain self.now) p s }
    {
        let t = self.table_of(p)?;
        self.get(t)?.slot(s)
    }

    pub fn is_free(&self, p: usize, s: u32) -> bool
        ensures { result ≡ plain.free (plain.plain self.now) p s }
    {
        let Some(t) = self.table_of(p) else {
            return false;
        };
        self.get(t).is_some_and(|it| it.is_free(s))
    }
}
