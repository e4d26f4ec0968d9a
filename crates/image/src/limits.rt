// Files of which only the first bytes were read, as they may go on beyond a limit.
ghost use Rattle.std.specs.Prelude.{◌≡◌};
ghost use Rattle.image.specs.Limits as limits;

use crate::census::{Census, Kinds};
use crate::fields::{end_of, one};
use crate::rows::{EventKind, check_events};
use crate::verdicts::check_with;
use rights::Refusal;

// The check of an image's first bytes: its faults come first, and then that `more` bytes follow.
// Bytes and mark stand apart, here and for events: a `&Part` would ask the caller for a `Vec`.
pub fn check_part(kinds: Kinds, image: &[u8], more: bool, frames: u32) -> Result<Census, Refusal>
    ensures { result ≡ limits.part_verdict kinds frames more image.now }
{
    match check_with(kinds, image, frames) {
        Ok(_) | Err(Refusal::Frames(_)) if more => Err(Refusal::Length(image.len())),
        whole => whole,
    }
}

// Whether an event at `at` is cut in two by the end of what was read.
fn cut_in_two(events: &[u8], at: usize) -> bool
    ensures { result ≡ limits.cut_in_two events.now at }
{
    let kind = EventKind::try_from(one(events, at));
    kind.is_ok_and(|kind| end_of(events, at, kind.width()).is_none())
}

// The same of a row of events.
pub fn check_events_part(image: &[u8], events: &[u8], more: bool) -> Result<(), Refusal>
    ensures { result ≡ limits.part_events more image.now events.now }
{
    match check_events(image, events) {
        Ok(()) if more => Err(Refusal::Event(events.len())),
        Err(refusal) if more && cut_in_two(events, refusal.place()) => {
            Err(Refusal::Event(events.len()))
        }
        whole => whole,
    }
}
