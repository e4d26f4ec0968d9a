// A trial of programs: where they start, and what happens.
use crate::setting::{Program, image};
use crate::turns::{Turn, row};
use model::{Fault, Object, State, World};
use replay::{Replayed, StartError, run};
use rights::Said;
use std::alloc::{AllocError, Global};

// How many frames are lent.
pub const LENT: u32 = 64;

#[derive(Clone, Copy, Debug)]
pub struct Trial {
    // The frames of pool 0.
    pub frames: u16,
    pub programs: &'static [Program],
    pub turns: &'static [Turn],
    // What is to be said on line 1.
    pub said: &'static [u8],
}

// What was said and what is left, if the image and the events are taken.
#[derive(Drop)]
pub struct Outcome {
    pub said: Vec<u8>,
    pub world: World,
}

// The bytes that were said on line 1, in order.
fn bytes(heap: Global, said: &[Said]) -> Result<Vec<u8>, AllocError> {
    let mut bytes = Vec::new(heap);
    for said in said {
        if said.line == 1 {
            bytes.push(said.byte)?;
        }
    }
    Ok(bytes)
}

impl Trial {
    pub fn run(&self, heap: Global) -> Result<Outcome, StartError> {
        let image = image(heap, self.frames, self.programs).map_err(Fault::from)?;
        let row = row(heap, self.turns).map_err(Fault::from)?;
        let Replayed { world, said } = run(heap, &image, &row, LENT)?;
        let said = bytes(heap, &said).map_err(Fault::from)?;
        Ok(Outcome { said, world })
    }
}

// The state and the pc of a thread.
pub fn state(world: &World, p: usize) -> Option<(State, u32)> {
    match world.get(p)? {
        Object::Thread(thread) => Some((thread.state, thread.cpu.pc)),
        _ => None,
    }
}
