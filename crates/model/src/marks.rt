// Marks: what was made from a capability, and what was cut from a pool, each found in one pass.
ghost use Rattle.std.specs.Prelude.{◌≡◌, Bool, List, false, [], map, IfOk, slice_index_or};
ghost use Rattle.model.specs.Plain as plain;
ghost use Rattle.model.specs.Sweeps as sweeps;

use crate::objects::{Capability, Fault, Object, World};
use std::alloc::Global;
use std::marker::Model;

// What a revoke takes: births after `base` with a mark, and objects with a mark. They stand beside the
// lineage and the objects in their order, are made for one revoke, and go with it.
#[derive(Drop)]
pub struct Marks {
    pub base: u64,
    pub births: Vec<bool>,
    pub objects: Vec<bool>,
}

impl Model for Marks {
    ghost use Rattle.std.specs.Prelude.{vec_items};
    ghost use Rattle.model.specs.Sweeps.{Marks};

    ghost Value = { Marks };

    ghost view = { λ k. record { base = k.base; births = vec_items k.births; objects = vec_items k.objects } };
}

// The same marks, lent: who has slices of them makes no vectors. It is no Copy, since a struct with a
// lifetime and a model can't be, and is handed on by `&`.
#[derive(Drop)]
pub struct LentMarks<'a> {
    pub base: u64,
    pub births: &'a [bool],
    pub objects: &'a [bool],
}

impl<'a> Model for LentMarks<'a> {
    ghost use Rattle.model.specs.Sweeps.{Marks};

    ghost Value = { Marks };

    ghost view = { λ k. record { base = k.base; births = k.births.now; objects = k.objects.now } };
}

impl Marks {
    pub fn lent(&self) -> LentMarks<'_>
        ensures { result ≡ self.now }
    {
        LentMarks {
            base: self.base,
            births: self.births.as_slice(),
            objects: self.objects.as_slice(),
        }
    }

    pub fn takes(&self, o: usize) -> bool
        ensures { result ≡ sweeps.takes self.now o }
    {
        self.lent().takes(o)
    }

    pub fn takes_birth(&self, birth: u64) -> bool
        ensures { result ≡ sweeps.takes_birth self.now birth }
    {
        self.lent().takes_birth(birth)
    }
}

impl LentMarks<'_> {
    pub fn takes(&self, o: usize) -> bool
        ensures { result ≡ sweeps.takes self.now o }
    {
        flag(self.objects, o)
    }

    pub fn takes_birth(&self, birth: u64) -> bool
        ensures { result ≡ sweeps.takes_birth self.now birth }
    {
        marked(self.base, self.births, birth)
    }
}

// The mark at a place, none past the end.
pub fn flag(marks: &[bool], i: usize) -> bool
    ensures { result ≡ slice_index_or marks.now i false }
{
    marks.get(i).copied().unwrap_or(false)
}

// The mark of a birth, where marks begin after `base`. Not of a `Marks`: it is asked also while they are
// made.
pub fn marked(base: u64, marks: &[bool], birth: u64) -> bool
    ensures { result ≡ sweeps.marked base marks.now birth }
{
    if birth > base {
        flag(marks, (birth - base - 1) as usize)
    } else {
        false
    }
}

// Whether there is a capability that was made from the root, or from one that has a mark.
fn mark_of(root: u64, base: u64, marks: &[bool], x: &Option<Capability>) -> bool
    ensures { result ≡ sweeps.mark_of root base marks.now x.now }
{
    x.is_some_and(|c| c.mother == root || marked(base, marks, c.mother))
}

// A mark for each item, by the marks before it.
fn scan<T, F: Fn(&[bool], &T) -> bool>(
    heap: Global,
    items: &[T],
    test: F,
) -> Result<Vec<bool>, Fault>
    requires { F.IsAlwaysCallable test }
    ensures { IfOk result (λ marks. (f : List Bool → T → Bool) → ((ms : _) (x : _) (b : _) → F.post test ms x b → b ≡ f ms.now x.now) → marks.items ≡ sweeps.scan f [] items.now) }
{
    let mut marks = Vec::new(heap);
    for x in items {
        let mark = test(marks.as_slice(), x);
        marks.push(mark)?;
    }
    Ok(marks)
}

impl Object {
    pub fn from(&self) -> Option<usize>
        ensures { result ≡ plain.from_of (plain.thing self.now) }
    {
        match self {
            Object::Pool { from, .. }
            | Object::Table { from, .. }
            | Object::Port { from, .. }
            | Object::Page { from, .. } => *from,
            Object::Gone | Object::Thread(_) | Object::Line { .. } => None,
        }
    }
}

// Whether an object was cut from pool `o`, or from one that has a mark.
fn cut_mark(o: usize, marks: &[bool], x: &Object) -> bool
    ensures { result ≡ sweeps.cut_mark o marks.now (plain.thing x.now) }
{
    x.from().is_some_and(|f| f == o || flag(marks, f))
}

fn cuts_of(heap: Global, o: usize, objects: &[Object]) -> Result<Vec<bool>, Fault>
    ensures { IfOk result (λ v. v.items ≡ sweeps.scan (sweeps.cut_mark o) [] (map plain.thing objects.now)) }
{
    let marks = scan(heap, objects, |marks, x| cut_mark(o, marks, x))?;
    Ok(marks)
}

impl World {
    // The last birth before the first of the lineage.
    pub fn base(&self) -> u64
        ensures { result ≡ sweeps.base_of (plain.plain self.now) }
    {
        self.births.saturating_sub(self.lineage.len() as u64)
    }

    // What was made from the root, and from those.
    pub fn birth_marks(&self, root: u64) -> Result<Vec<bool>, Fault>
        ensures { IfOk result (λ v. v.items ≡ sweeps.marks (plain.plain self.now) root) }
    {
        let heap = *self.lineage.allocator();
        let base = self.base();
        Ok(scan(
            heap,
            self.lineage.as_slice(),
            |marks, c| mark_of(root, base, marks, c),
        )?)
    }

    // What was cut from pool `o`, and from pools among those; nothing of what is no pool.
    pub fn cut_marks(&self, o: usize) -> Result<Vec<bool>, Fault>
        ensures { IfOk result (λ v. v.items ≡ sweeps.cut_marks (plain.plain self.now) o) }
    {
        let heap = *self.objects.allocator();
        let Some(Object::Pool { .. }) = self.get(o) else {
            return Ok(Vec::new(heap));
        };
        cuts_of(heap, o, self.objects.as_slice())
    }

    // What a revoke of a capability takes.
    pub fn marks_for(&self, c: Capability) -> Result<Marks, Fault>
        ensures { IfOk result (λ k. k ≡ sweeps.marks_for (plain.plain self.now) c) }
    {
        let births = self.birth_marks(c.birth)?;
        let objects = self.cut_marks(c.object)?;
        Ok(Marks {
            base: self.base(),
            births,
            objects,
        })
    }
}
