// Objects of an image.
ghost use Rattle.std.specs.Prelude.{◌≡◌, ◌+◌, ◌^◌, ◌<◌, ◌≤◌, count_by, IfOk};
ghost use Rattle.std.specs.Option.{is_some};
ghost use Rattle.image.specs.Meaning as meaning;
ghost use Rattle.model.specs.Meaning as model;
ghost use Rattle.model.specs.Plain as plain;
ghost use Rattle.replay.specs.Reading as reading;

use crate::places::Places;
use crate::slots::slots;
use crate::threads::thread;
use image::{kind_of, one, size_at};
use model::{Capability, Object};
use rights::Kind;
use std::alloc::{AllocError, Global};
use std::collections::VecDeque;

// The `count` bytes from `at` on.
fn page(heap: Global, bytes: &[u8], count: usize, at: usize) -> Result<Vec<u8>, AllocError>
    requires { at + count < 2 ^ 64 }
    ensures { IfOk result (λ page. page.items ≡ meaning.bytes_from bytes.now count at) }
{
    let mut page = Vec::new(heap);
    for k in 0..count {
        page.push(one(bytes, at + k))?;
    }
    Ok(page)
}

// Object `o`, if what it has begins at these places.
pub(crate) fn object(
    heap: Global,
    bytes: &[u8],
    o: u16,
    places: &Places,
) -> Result<Object, AllocError>
    requires { reading.Low places.now × (places.now.born ≤ 2 ^ 63) }
    ensures same { IfOk result (λ object. model.object_of (plain.thing object) ≡ meaning.object_at bytes.now o (reading.seen places.now)) }
    ensures few { IfOk result (λ object. reading.births (model.object_of (plain.thing object)) < 65536) }
{
    let size = size_at(bytes, o);
    let object = match kind_of(bytes, o) {
        Err(_) => Object::Gone,
        Ok(Kind::Pool) => Object::Pool {
            from: None,
            size: u64::from(size) * 4096,
            used: 0,
        },
        Ok(Kind::Table) => Object::Table {
            from: None,
            slots: slots(heap, bytes, usize::from(size), places.slots_at, places.born)?,
        },
        Ok(Kind::Port) => Object::Port {
            from: None,
            queue: VecDeque::new(heap),
        },
        Ok(Kind::Page) => Object::Page {
            from: None,
            bytes: page(heap, bytes, 4096, places.bytes_at)?,
        },
        Ok(Kind::Thread) => Object::Thread(thread(bytes, places.thread_at)),
        Ok(Kind::Line) => Object::Line {
            shown: Vec::new(heap),
            heard: VecDeque::new(heap),
        },
    };
    Ok(object)
}

// How many slots hold something.
fn held(slots: &[Option<Capability>]) -> usize
    ensures { result ≡ count_by is_some slots.now }
{
    slots.iter().filter(|slot| slot.is_some()).count()
}

// How many capabilities are in an object's slots.
#[tactic(auto, using(crate::proofs::Made::counted), unfolding(rights::specs::World::slots_of, image::specs::Meaning::births_of))]
pub(crate) fn births(object: &Object) -> u64
    ensures { result ≡ reading.births (model.object_of (plain.thing object.now)) }
{
    match object {
        Object::Table { slots, .. } => held(slots) as u64,
        Object::Gone
        | Object::Pool { .. }
        | Object::Port { .. }
        | Object::Page { .. }
        | Object::Thread(_)
        | Object::Line { .. } => 0,
    }
}
