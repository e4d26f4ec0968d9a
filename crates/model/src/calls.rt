// Calls on slots, lines and threads.
ghost use Rattle.std.specs.Prelude.{◌≡◌, suc, IfOk, OnOk};
ghost use Rattle.std.specs.Result.{result_ok};
ghost use Rattle.rights.specs.declared.answers.Answer.TheVariants.{No, Done};
ghost use Rattle.model.specs.Calls as calls;
ghost use Rattle.model.specs.Plain as plain;

use crate::ends::{CallError, Refused};
use crate::objects::{Capability, Fault, Object, World};
use rights::Rights;

// What is made of a capability: no more rights, and a badge if it has none.
fn copied(c: Capability, rights: Rights, badge: u32, birth: u64) -> Capability
    ensures { result ≡ calls.copied c rights badge birth }
{
    Capability {
        object: c.object,
        rights: c.rights.meet(rights),
        badge: if c.badge == 0 { badge } else { c.badge },
        birth,
        mother: c.birth,
    }
}

// A thread and the number of a slot stand beside each other, not in a pair: a call names one thread and
// up to two slots of it.
impl World {
    // What slot `s` of thread `p` holds.
    pub fn held(&self, p: usize, s: u32) -> Result<Capability, Refused>
        ensures { result_ok result ≡ plain.slot (plain.plain self.now) p s }
    {
        self.slot(p, s).ok_or(Refused)
    }

    // The same, if its rights say reads.
    pub fn readable(&self, p: usize, s: u32) -> Result<Capability, Refused>
        ensures { result_ok result ≡ calls.readable (plain.plain self.now) p s }
    {
        self.slot(p, s).filter(|c| c.rights.reads()).ok_or(Refused)
    }

    // The same, if its rights say writes.
    pub fn writable(&self, p: usize, s: u32) -> Result<Capability, Refused>
        ensures { result_ok result ≡ calls.writable (plain.plain self.now) p s }
    {
        self.slot(p, s).filter(|c| c.rights.writes()).ok_or(Refused)
    }

    // Nothing is done where there is no such slot.
    pub fn put_slot(&mut self, p: usize, s: u32, x: Option<Capability>)
        ensures { plain.plain self.new ≡ plain.with_slot (plain.plain self.old) p s x }
    {
        let Some(t) = self.table_of(p) else {
            return;
        };
        if let Some(table) = self.get_mut(t) {
            table.put_slot(s, x);
        }
    }

    pub fn next_birth(&self) -> Result<u64, Fault>
        ensures { IfOk result (λ n. n ≡ suc self.now.births) }
    {
        self.births.checked_add(1).ok_or(Fault::Numbers)
    }

    // One more capability was made.
    pub fn bear(&mut self, child: Option<Capability>) -> Result<(), Fault>
        ensures { OnOk result (plain.plain self.new ≡ calls.born (plain.plain self.old) child) }
    {
        self.births = self.next_birth()?;
        self.lineage.push(child)?;
        Ok(())
    }

    pub fn copy(
        &mut self,
        p: usize,
        s: u32,
        d: u32,
        rights: Rights,
        badge: u32,
    ) -> Result<(), CallError>
        ensures { plain.Comes result (λ _. plain.on (plain.plain self.new) Done) (plain.on (plain.plain self.new) No) (calls.copy (plain.plain self.old) p s d rights badge) }
    {
        let c = self.held(p, s)?;
        if !c.rights.hands_on() || !self.is_free(p, d) {
            return Err(CallError::Refused);
        }
        let child = copied(c, rights, badge, self.next_birth()?);
        self.bear(Some(child))?;
        self.put_slot(p, d, Some(child));
        Ok(())
    }

    pub fn shift(&mut self, p: usize, s: u32, d: u32) -> Result<(), Refused>
        ensures { plain.on (plain.plain self.new) (plain.done_or_no result) ≡ calls.move (plain.plain self.old) p s d }
    {
        let c = self.held(p, s)?;
        if !self.is_free(p, d) {
            return Err(Refused);
        }
        self.put_slot(p, d, Some(c));
        self.put_slot(p, s, None);
        Ok(())
    }

    pub fn let_go(&mut self, p: usize, s: u32) -> Result<(), Refused>
        ensures { plain.on (plain.plain self.new) (plain.done_or_no result) ≡ calls.drop_it (plain.plain self.old) p s }
    {
        self.held(p, s)?;
        self.put_slot(p, s, None);
        Ok(())
    }

    pub fn say(&mut self, p: usize, s: u32, b: u32) -> Result<(), CallError>
        ensures { plain.Comes result (λ _. plain.on (plain.plain self.new) Done) (plain.on (plain.plain self.new) No) (calls.say (plain.plain self.old) p s b) }
    {
        let line = self.writable(p, s)?.object;
        self.get_mut(line).ok_or(Refused)?.say((b % 256) as u8)
    }

    pub fn hear(&mut self, p: usize, s: u32) -> Result<u8, Refused>
        ensures { plain.on (plain.plain self.new) (plain.heard_or_no result) ≡ calls.hear (plain.plain self.old) p s }
    {
        let line = self.readable(p, s)?.object;
        self.get_mut(line).ok_or(Refused)?.hear()
    }

    pub fn go(&mut self, p: usize, t: u32, pc: u32) -> Result<(), Refused>
        ensures { plain.on (plain.plain self.new) (plain.done_or_no result) ≡ calls.go (plain.plain self.old) p t pc }
    {
        let thread = self.writable(p, t)?.object;
        self.get_mut(thread).ok_or(Refused)?.go(pc)
    }

    pub fn bind(&mut self, p: usize, t: u32, s: u32) -> Result<(), Refused>
        ensures { plain.on (plain.plain self.new) (plain.done_or_no result) ≡ calls.bind (plain.plain self.old) p t s }
    {
        let table = self.writable(p, s)?.object;
        let thread = self.writable(p, t)?.object;
        let Some(Object::Table { .. }) = self.get(table) else {
            return Err(Refused);
        };
        self.get_mut(thread).ok_or(Refused)?.bind(table)
    }

    pub fn map(&mut self, p: usize, s: u32, t: u32, place: u32) -> Result<(), Refused>
        ensures { plain.on (plain.plain self.new) (plain.done_or_no result) ≡ calls.map (plain.plain self.old) p s t place }
    {
        let page = self.readable(p, s)?;
        let thread = self.writable(p, t)?.object;
        let Some(Object::Page { .. }) = self.get(page.object) else {
            return Err(Refused);
        };
        self.get_mut(thread)
            .ok_or(Refused)?
            .map(place, page.object, page.rights.writes())
    }

    pub fn unmap(&mut self, p: usize, t: u32, place: u32) -> Result<(), Refused>
        ensures { plain.on (plain.plain self.new) (plain.done_or_no result) ≡ calls.unmap (plain.plain self.old) p t place }
    {
        let thread = self.writable(p, t)?.object;
        self.get_mut(thread).ok_or(Refused)?.unmap(place)
    }
}
