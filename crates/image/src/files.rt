// Files that are read up to a limit, and the check of both files of a run.
ghost use Rattle.std.specs.Prelude.{◌≡◌, take, IfOk, vec_len, nat_lt};
ghost use Rattle.image.specs.Limits as limits;
ghost use Rattle.image.specs.Verdict as verdict;

use crate::census::{Census, Kinds};
use crate::limits::{check_events_part, check_part};
use rights::Refusal;
use std::io::Read;
use std::rt::Files;
use std::{fs, io};

// How many bytes of an image are read at most, and of a row of events.
pub const IMAGE_LIMIT: usize = 2_097_152;

pub const EVENTS_LIMIT: usize = 1_048_576;

// The first bytes of a file, and whether it goes on beyond them.
// A flag beside the bytes, since callers build parts of any length, so that an invariant would ask
// more; and no enum, since both of its variants would carry the bytes.
#[derive(Drop)]
pub struct Part {
    pub bytes: Vec<u8>,
    pub more: bool,
}

impl Part {
    // The first `limit` bytes of some.
    pub fn first(limit: usize, mut bytes: Vec<u8>) -> Part
        ensures bytes { result.bytes.items ≡ take limit bytes.items }
        ensures cut { limits.CutAt limit result }
        ensures more { result.more ≡ nat_lt limit (vec_len bytes) }
    {
        let more = limit < bytes.len();
        bytes.truncate(limit);
        Part { bytes, more }
    }

    // Reads the first `limit` bytes of a file, and looks whether there is one more.
    pub fn read<R: Files + AllocGlobal>(rt: &R, path: &str, limit: usize) -> io::Result<Part>
        ensures { IfOk result (limits.CutAt limit) }
    {
        let mut bytes = Vec::new(rt.alloc());
        let file = fs::open(rt, path)?;
        file.take((limit as u64).saturating_add(1))
            .read_to_end(&mut bytes)?;
        Ok(Part::first(limit, bytes))
    }
}

// Which of the two files of a run cannot be read, and why.
#[derive(Debug, Drop)]
pub enum Unreadable {
    Image(io::Error),
    Events(io::Error),
}

// The two files of a run.
#[derive(Drop)]
pub struct Inputs {
    pub image: Part,
    pub events: Part,
}

impl Inputs {
    // Reads both, each up to its own limit; where neither can be read, it is the image that is told.
    pub fn read<R: Files + AllocGlobal>(
        rt: &R,
        image: &str,
        events: &str,
    ) -> Result<Inputs, Unreadable>
        ensures { IfOk result (λ p. limits.CutAt 2097152 p.image × limits.CutAt 1048576 p.events) }
    {
        let image = Part::read(rt, image, IMAGE_LIMIT);
        let events = Part::read(rt, events, EVENTS_LIMIT);
        Ok(Inputs {
            image: image.map_err(Unreadable::Image)?,
            events: events.map_err(Unreadable::Events)?,
        })
    }

    // Whether they are taken, with `frames` frames lent: first what is wrong with the image, then
    // with the events.
    pub fn check_with(&self, kinds: Kinds, frames: u32) -> Result<Census, Refusal>
        ensures { result ≡ limits.both kinds frames self.now.image.more self.now.image.bytes.items self.now.events.more self.now.events.bytes.items }
    {
        let image = &self.image;
        let events = &self.events;
        let census = check_part(kinds, &image.bytes, image.more, frames)?;
        check_events_part(&image.bytes, &events.bytes, events.more)?;
        Ok(census)
    }

    // The same for the kinds of objects that the kernel has, and the 1,024 frames that it is lent.
    pub fn check(&self) -> Result<Census, Refusal>
        ensures { result ≡ limits.both verdict.built 1024 self.now.image.more self.now.image.bytes.items self.now.events.more self.now.events.bytes.items }
    {
        self.check_with(Kinds::BUILT, 1024)
    }
}
