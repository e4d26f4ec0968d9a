// What a slot holds, as a value. A slot is a unit; its first eight words are its content.
ghost use Rattle.std.specs.Prelude.{◌≡◌};
ghost use Rattle.board.specs.Slots as spec;

use crate::words::{put_words, word};
use rights::Rights;

// An object, by where it lies. Sizes and used parts are in units; a thread and a line do not lie on the
// board and have an index. A pool in a pool has a level one higher, so that two pools at one place differ.
#[derive(Clone, Copy, Debug, PartialEq, Eq)]
pub enum Object {
    Pool {
        place: u32,
        size: u32,
        used: u32,
        level: u64,
    },
    Table {
        place: u32,
        slots: u32,
    },
    Port {
        place: u32,
    },
    Page {
        place: u32,
    },
    Thread {
        index: u32,
    },
    Line {
        index: u32,
    },
}

#[derive(Clone, Copy, Debug, PartialEq, Eq)]
pub struct Capability {
    pub object: Object,
    pub rights: Rights,
    pub badge: u32,
}

// The object that six words mean: its kind's number and 1, place or index, size, used, and the low and
// high half of its level.
#[inline]
fn object_of(words: [u32; 6]) -> Option<Object>
    ensures { result ≡ spec.object_of words }
{
    let [kind, place, size, used, low, high] = words;
    match kind {
        1 => Some(Object::Pool {
            place,
            size,
            used,
            level: u64::from(low) + 4_294_967_296 * u64::from(high),
        }),
        2 => Some(Object::Table { place, slots: size }),
        3 => Some(Object::Port { place }),
        4 => Some(Object::Page { place }),
        5 => Some(Object::Thread { index: place }),
        6 => Some(Object::Line { index: place }),
        _ => None,
    }
}

// The six words that mean an object.
#[inline]
fn words_of(object: Object) -> [u32; 6]
    ensures { result ≡ spec.words_of object }
{
    match object {
        Object::Pool {
            place,
            size,
            used,
            level,
        } => [
            1,
            place,
            size,
            used,
            (level % 4_294_967_296) as u32,
            (level / 4_294_967_296) as u32,
        ],
        Object::Table { place, slots } => [2, place, slots, 0, 0, 0],
        Object::Port { place } => [3, place, 0, 0, 0, 0],
        Object::Page { place } => [4, place, 0, 0, 0, 0],
        Object::Thread { index } => [5, index, 0, 0, 0, 0],
        Object::Line { index } => [6, index, 0, 0, 0, 0],
    }
}

// What eight words mean: an object, rights and a badge. Words that name no kind or no rights mean that
// the slot is empty.
#[inline]
fn decode(words: [u32; 8]) -> Option<Capability>
    ensures { result ≡ spec.decoded words }
{
    let [kind, place, size, used, low, high, rights, badge] = words;
    let object = object_of([kind, place, size, used, low, high])?;
    let rights = Rights::try_from(rights).ok()?;
    Some(Capability {
        object,
        rights,
        badge,
    })
}

// The eight words that mean what a slot holds; 0 throughout if it is empty.
#[inline]
fn encode(slot: Option<Capability>) -> [u32; 8]
    ensures { result ≡ spec.encoded slot }
{
    let Some(capability) = slot else {
        return [0; 8];
    };
    let [kind, place, size, used, low, high] = words_of(capability.object);
    let rights = u32::from(u8::from(capability.rights));
    [kind, place, size, used, low, high, rights, capability.badge]
}

// What the slot at a place holds; nothing where there is none.
#[inline]
pub fn slot_at(board: &[u8], place: u32) -> Option<Capability>
    ensures { result ≡ spec.slot_at board.now place }
{
    decode([
        word(board, place, 0),
        word(board, place, 1),
        word(board, place, 2),
        word(board, place, 3),
        word(board, place, 4),
        word(board, place, 5),
        word(board, place, 6),
        word(board, place, 7),
    ])
}

// The slot at a place holds something else; its links stay.
#[inline]
pub fn put_slot(board: &mut [u8], place: u32, slot: Option<Capability>)
    ensures { board.new ≡ spec.put_slot board.old place slot }
{
    put_words(board, place, &encode(slot));
}
