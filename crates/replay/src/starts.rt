// The start: the check of an image, and the world that it means.
ghost use Rattle.std.specs.Prelude.{◌≡◌, IfOk, Ok, Err};
ghost use Rattle.rights.specs.declared.refusals.Refusal.{Refusal};
ghost use Rattle.image.specs.declared.census.Census.{Census};
ghost use Rattle.image.specs.Meaning as meaning;
ghost use Rattle.image.specs.Verdict.{verdict, all_kinds};
ghost use Rattle.model.specs.declared.objects.Fault as model;
ghost use Rattle.model.specs.declared.objects.Fault.TheVariants.{Memory};
ghost use Rattle.model.specs.Meaning.{meant};
ghost use Rattle.model.specs.Plain.{plain};
ghost use Rattle.model.specs.Sound.{Sound};
ghost use Rattle.replay.specs.declared.errors.StartError.TheVariants as error;

use crate::errors::StartError;
use crate::objects::{births, object};
use crate::places::Places;
use image::{Image, Kinds, check_with, two};
use model::{Fault, World};
use std::alloc::{AllocError, Global};

// The world that some bytes mean, whether they are taken or not.
pub(crate) fn world(heap: Global, bytes: &[u8]) -> Result<World, AllocError>
    ensures { IfOk result (λ world. meant world ≡ meaning.world_of bytes.now) }
{
    let image = Image {
        bytes,
        objects: two(bytes, 4),
    };
    let mut places = Places::first(&image);
    let mut objects = Vec::new(heap);
    for o in 0..image.objects {
        let object = object(heap, bytes, o, &places)?;
        places = places.after(&image, o, births(&object));
        objects.push(object)?;
    }
    Ok(World {
        objects,
        births: places.born,
        lineage: Vec::new(heap),
    })
}

// The world that an image means, with all kinds of objects let in; or why the image is not taken; or
// want of memory.
pub fn start(heap: Global, image: &[u8], frames: u32) -> Result<World, StartError>
    ensures taken { IfOk result (λ _. (census : Census) × (verdict all_kinds frames image.now ≡ Ok census)) }
    ensures means { IfOk result (λ world. meant world ≡ meaning.world_of image.now) }
    ensures sound { IfOk result (λ world. Sound (plain world)) }
    ensures refused { (r : Refusal) → verdict all_kinds frames image.now ≡ Err r → result ≡ Err (error.Refused r) }
    ensures told { (r : Refusal) → result ≡ Err (error.Refused r) → verdict all_kinds frames image.now ≡ Err r }
    ensures fault { (f : model.Fault) → result ≡ Err (error.Fault f) → f ≡ Memory }
{
    let _ = check_with(Kinds::ALL, image, frames)?;
    let world = world(heap, image).map_err(Fault::from)?;
    Ok(world)
}
