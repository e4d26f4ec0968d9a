// Whole rows of events, from an image on.
ghost use Rattle.std.specs.Prelude.{◌≡◌, ℕ, IfOk, IfErr, Ok, Err};
ghost use Rattle.rights.specs.declared.refusals.Refusal.{Refusal};
ghost use Rattle.image.specs.declared.census.Census.{Census};
ghost use Rattle.image.specs.Events.{events as events_verdict};
ghost use Rattle.image.specs.Fields.{◌then◌};
ghost use Rattle.image.specs.Limits as limits;
ghost use Rattle.image.specs.Verdict.{verdict, all_kinds};
ghost use Rattle.replay.specs.declared.errors.StartError.TheVariants as error;
ghost use Rattle.replay.specs.Replays as replays;

use crate::errors::StartError;
use crate::rows::carry_out_row;
use crate::starts::world;
use image::{Inputs, Kinds, check_events, check_with};
use model::{Fault, World};
use rights::Said;
use std::alloc::Global;

// How many frames the program lends.
pub const FRAMES: u32 = 1024;

// What a row of events left of a world, and what was said in it, in order.
#[derive(Drop)]
pub struct Replayed {
    pub world: World,
    pub said: Vec<Said>,
}

// A row of events, carried out from the world that some bytes mean. What is handed back is right where
// they are taken.
fn carried_out(heap: Global, image: &[u8], events: &[u8]) -> Result<Replayed, Fault>
    ensures { IfOk result (λ r. (lent : ℕ) (census : Census) → verdict all_kinds lent image.now ≡ Ok census → replays.Replays image.now events.now r) }
{
    let mut world = world(heap, image)?;
    let said = carry_out_row(heap, &mut world, events)?;
    Ok(Replayed { world, said })
}

// The world that is left once a row of events was carried out from the start, and what was said; or why
// the image or the events are not taken, the image first; or want of memory or of numbers.
pub fn run(heap: Global, image: &[u8], events: &[u8], frames: u32) -> Result<Replayed, StartError>
    ensures runs { IfOk result (replays.Replays image.now events.now) }
    ensures refused { (r : Refusal) → (verdict all_kinds frames image.now then λ _. events_verdict image.now events.now) ≡ Err r → result ≡ Err (error.Refused r) }
    ensures told { IfErr result (replays.Told (verdict all_kinds frames image.now then λ _. events_verdict image.now events.now)) }
{
    let _ = check_with(Kinds::ALL, image, frames)?;
    check_events(image, events)?;
    Ok(carried_out(heap, image, events)?)
}

// The same of two files, with 1,024 frames lent: what of a file is beyond its limit is refused as well.
pub fn run_inputs(heap: Global, inputs: &Inputs) -> Result<Replayed, StartError>
    ensures runs { IfOk result (replays.Replays inputs.now.image.bytes.items inputs.now.events.bytes.items) }
    ensures refused { (r : Refusal) → limits.both all_kinds 1024 inputs.now.image.more inputs.now.image.bytes.items inputs.now.events.more inputs.now.events.bytes.items ≡ Err r → result ≡ Err (error.Refused r) }
    ensures told { IfErr result (replays.Told (limits.both all_kinds 1024 inputs.now.image.more inputs.now.image.bytes.items inputs.now.events.more inputs.now.events.bytes.items)) }
{
    let _ = inputs.check_with(Kinds::ALL, FRAMES)?;
    Ok(carried_out(heap, &inputs.image.bytes, &inputs.events.bytes)?)
}
