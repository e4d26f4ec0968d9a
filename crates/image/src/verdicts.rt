// The whole check of an image.
ghost use Rattle.std.specs.Prelude.{◌≡◌};
ghost use Rattle.image.specs.Verdict as verdict;

use crate::census::{Census, Kinds};
use crate::frames::frames_for;
use crate::headers::Image;
use rights::Refusal;

// Takes an image with objects of the kinds that are let in, if it fits into `frames` frames, of
// which at most 4,096 are used; or says what is wrong with it and where.
pub fn check_with(kinds: Kinds, image: &[u8], frames: u32) -> Result<Census, Refusal>
    ensures { result ≡ verdict.verdict kinds frames image.now }
{
    let image = Image::open(image)?;
    let census = image.headers(kinds)?;
    let end = image.body()?;
    if image.bytes.len() > end {
        return Err(Refusal::Length(end));
    }
    let needed = frames_for(image.bytes, image.objects);
    if needed > u64::from(frames.min(4096)) {
        return Err(Refusal::Frames(needed));
    }
    Ok(census)
}

// The same for the kinds of objects that the kernel has.
pub fn check(image: &[u8], frames: u32) -> Result<Census, Refusal>
    ensures { result ≡ verdict.verdict verdict.built frames image.now }
{
    check_with(Kinds::BUILT, image, frames)
}
