// Slots of tables.
ghost use Rattle.std.specs.Prelude.{◌≡◌, ◌+◌, ◌^◌, ◌<◌, ◌≤◌, map, IfOk};
ghost use Rattle.rights.specs.Vocabulary.{rights_of, rights_of_bits};
ghost use Rattle.image.specs.Meaning as meaning;
ghost use Rattle.model.specs.Meaning.{slot_of};
ghost use Rattle.replay.specs.Reading as reading;

use image::{one, two};
use model::Capability;
use rights::Rights;
use std::alloc::{AllocError, Global};

// The number of four bytes at `at`.
pub(crate) fn four(bytes: &[u8], at: usize) -> u32
    requires { at + 3 < 2 ^ 64 }
    ensures { result ≡ meaning.four bytes.now at }
{
    u32::from_le_bytes([
        one(bytes, at),
        one(bytes, at + 1),
        one(bytes, at + 2),
        one(bytes, at + 3),
    ])
}

// The rights that a byte means, by its three lowest bits.
fn rights(byte: u8) -> Rights
    ensures { rights_of result ≡ rights_of_bits byte }
{
    let Ok(rights) = Rights::try_from(u32::from(byte & 7)) else {
        unreachable!()
    };
    rights
}

// The slot at `at`, where what it holds is born with a number.
fn slot(bytes: &[u8], at: usize, birth: u64) -> Option<Capability>
    requires { at + 6 < 2 ^ 64 }
    ensures { slot_of result ≡ reading.slot bytes.now at birth }
{
    let object = two(bytes, at).checked_sub(1)?;
    Some(Capability {
        object: usize::from(object),
        rights: rights(one(bytes, at + 2)),
        badge: four(bytes, at + 3),
        birth,
        mother: 0,
    })
}

// The `count` slots from `at` on, if `born` capabilities were born before.
pub(crate) fn slots(
    heap: Global,
    bytes: &[u8],
    count: usize,
    at: usize,
    born: u64,
) -> Result<Vec<Option<Capability>>, AllocError>
    requires { (count < 65536) × (at ≤ 2 ^ 63) × (born ≤ 2 ^ 63) }
    ensures { IfOk result (λ slots. map slot_of slots.items ≡ meaning.slots_from bytes.now count at born) }
{
    let mut slots = Vec::new(heap);
    let mut births = born;
    for k in 0..count {
        let slot = slot(bytes, at + 7 * k, births + 1);
        births += u64::from(slot.is_some());
        slots.push(slot)?;
    }
    Ok(slots)
}
