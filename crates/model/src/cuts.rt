// Cut: a new object out of a pool.
ghost use Rattle.std.specs.Prelude.{◌≡◌, length, replicate, IfOk, OnOk};
ghost use Rattle.rights.specs.declared.answers.Answer.TheVariants.{No, Done};
ghost use Rattle.model.specs.Calls as calls;
ghost use Rattle.model.specs.Cuts as cuts;
ghost use Rattle.model.specs.Plain as plain;

use crate::ends::{CallError, Refused};
use crate::objects::{Capability, Fault, Object, World};
use rights::{NewObject, Rights};
use std::alloc::Global;
use std::collections::VecDeque;

// What an object costs of its pool.
fn cost(what: NewObject) -> u64
    ensures { result ≡ calls.cost what }
{
    match what {
        NewObject::Pool(n) => u64::from(n) * 4096,
        NewObject::Table(n) => u64::from(n) * 64,
        NewObject::Port => 64,
        NewObject::Page => 4096,
    }
}

// To which multiple a pool is filled up before.
fn filling(what: NewObject) -> u64
    ensures { result ≡ calls.filling what }
{
    match what {
        NewObject::Pool(_) | NewObject::Page => 4096,
        NewObject::Table(_) | NewObject::Port => 64,
    }
}

// Whether it has a right size. The same numbers are a limit of images and of calls, each over an enum of
// its own.
fn right(what: NewObject) -> bool
    ensures { result ≡ calls.right what }
{
    match what {
        NewObject::Pool(n) | NewObject::Table(n) => (1..=4096).contains(&n),
        NewObject::Port | NewObject::Page => true,
    }
}

// `n` bytes that are 0.
fn zeros(heap: Global, n: usize) -> Result<Vec<u8>, Fault>
    ensures { IfOk result (λ v. v.items ≡ replicate n 0) }
{
    Ok(vec![in heap; 0; n]?)
}

// The next multiple of 64 or 4,096, if it has 64 bits.
fn filled(what: NewObject, used: u64) -> Option<u64>
    ensures { result ≡ cuts.if_64_bits (calls.up_to (calls.filling what) used) }
{
    used.checked_next_multiple_of(filling(what))
}

// How much of a pool of a size is used once an object is cut, if it fits.
fn room(what: NewObject, size: u64, used: u64) -> Option<u64>
    ensures { result ≡ cuts.room what size used }
{
    if !right(what) {
        return None;
    }
    let after = filled(what, used)?.checked_add(cost(what))?;
    if after > size {
        return None;
    }
    Some(after)
}

impl Object {
    // How much of a pool is used once an object is cut, if it is a pool and that fits.
    pub fn room(&self, what: NewObject) -> Option<u64>
        ensures { result ≡ cuts.room_in what (plain.thing self.now) }
    {
        match self {
            Object::Pool { size, used, .. } => room(what, *size, *used),
            _ => None,
        }
    }

    pub fn set_used(&mut self, after: u64)
        ensures { plain.thing self.new ≡ cuts.with_used after (plain.thing self.old) }
    {
        if let Object::Pool { used, .. } = self {
            *used = after;
        }
    }

    // A new object, cut from pool `o`.
    fn made(heap: Global, o: usize, what: NewObject) -> Result<Object, Fault>
        ensures { IfOk result (λ x. plain.thing x ≡ calls.new_thing o what) }
    {
        let from = Some(o);
        match what {
            NewObject::Pool(n) => Ok(Object::Pool {
                from,
                size: u64::from(n) * 4096,
                used: 0,
            }),
            NewObject::Table(n) => {
                let slots = vec![in heap; None; n as usize]?;
                Ok(Object::Table { from, slots })
            }
            NewObject::Port => Ok(Object::Port {
                from,
                queue: VecDeque::new(heap),
            }),
            NewObject::Page => {
                let bytes = zeros(heap, 4096)?;
                Ok(Object::Page { from, bytes })
            }
        }
    }
}

impl World {
    // One object more.
    pub fn add(&mut self, it: Object) -> Result<(), Fault>
        ensures { OnOk result (plain.plain self.new ≡ calls.grown (plain.plain self.old) (plain.thing it)) }
    {
        self.objects.push(it)?;
        Ok(())
    }

    // The capability to the next object that is made.
    fn newborn(&self, mother: u64) -> Result<Capability, Fault>
        ensures { IfOk result (λ x. x ≡ calls.newborn (plain.plain self.now) mother) }
    {
        Ok(Capability {
            object: self.objects.len(),
            rights: Rights::all(),
            badge: 0,
            birth: self.next_birth()?,
            mother,
        })
    }

    pub fn cut_at(
        &mut self,
        p: usize,
        o: usize,
        mother: u64,
        what: NewObject,
        d: u32,
    ) -> Result<(), CallError>
        ensures { plain.Comes result (λ _. plain.on (plain.plain self.new) Done) (plain.on (plain.plain self.new) No) (cuts.cut_at (plain.plain self.old) p o mother what d) }
    {
        let after = self.get(o).and_then(|it| it.room(what)).ok_or(Refused)?;
        let child = self.newborn(mother)?;
        let it = Object::made(*self.objects.allocator(), o, what)?;
        if let Some(pool) = self.get_mut(o) {
            pool.set_used(after);
        }
        self.add(it)?;
        self.bear(Some(child))?;
        self.put_slot(p, d, Some(child));
        Ok(())
    }

    pub fn cut(&mut self, p: usize, s: u32, what: NewObject, d: u32) -> Result<(), CallError>
        ensures { plain.Comes result (λ _. plain.on (plain.plain self.new) Done) (plain.on (plain.plain self.new) No) (cuts.cut (plain.plain self.old) p s what d) }
    {
        let c = self.writable(p, s)?;
        if !self.is_free(p, d) {
            return Err(CallError::Refused);
        }
        self.cut_at(p, c.object, c.birth, what, d)
    }
}
