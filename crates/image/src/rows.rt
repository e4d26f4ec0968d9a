// Rows of events.
ghost use Rattle.std.specs.Prelude.{◌≡◌};
ghost use Rattle.std.specs.Option.{ok_or};
ghost use Rattle.rights.specs.declared.refusals.Refusal.TheVariants.{Event};
ghost use Rattle.image.specs.Events as rows;

use crate::fields::{end_of, one, two};
use crate::headers::Image;
use rights::{Kind, Refusal};

// What happens in an event: a thread is given an instruction's time, or a byte comes in at a line.
#[derive(Clone, Copy, Debug, PartialEq, Eq)]
pub enum EventKind {
    Tick,
    Byte,
}

// A number that no kind of event has.
#[derive(Clone, Copy, Debug, PartialEq, Eq)]
pub struct UnknownEvent {
    pub number: u8,
}

impl TryFrom<u8> for EventKind {
    type Error = UnknownEvent;

    ghost try_from_gives = { λ n r. r ≡ rows.event_kind n };

    fn try_from(number: u8) -> Result<EventKind, UnknownEvent> {
        match number {
            0 => Ok(EventKind::Tick),
            1 => Ok(EventKind::Byte),
            _ => Err(UnknownEvent { number }),
        }
    }
}

impl EventKind {
    // How many bytes an event of the kind has.
    pub fn width(self) -> usize
        ensures { result ≡ rows.width self }
    {
        match self {
            EventKind::Tick => 3,
            EventKind::Byte => 4,
        }
    }

    // The kind of object that it names.
    fn named(self) -> Kind
        ensures { result ≡ rows.named self }
    {
        match self {
            EventKind::Tick => Kind::Thread,
            EventKind::Byte => Kind::Line,
        }
    }
}

impl Image<'_> {
    // The place after an event of a kind at `at`, if it is there whole and names an object of the image.
    fn end_by_kind(&self, events: &[u8], at: usize, kind: EventKind) -> Option<usize>
        ensures { ok_or result (Event at) ≡ rows.event_of self.now.bytes.now self.now.objects events.now at (rows.width kind) (rows.named kind) }
    {
        let end = end_of(events, at, kind.width())?;
        self.has(two(events, at + 1), kind.named()).then_some(end)
    }

    // The same by the event's own kind. Each kind has a call of its own, so that its width is a constant
    // there, and the event's bytes are looked for once.
    fn event_end(&self, events: &[u8], at: usize) -> Option<usize>
        ensures { ok_or result (Event at) ≡ rows.event self.now.bytes.now self.now.objects events.now at }
    {
        match EventKind::try_from(one(events, at)).ok()? {
            EventKind::Tick => self.end_by_kind(events, at, EventKind::Tick),
            EventKind::Byte => self.end_by_kind(events, at, EventKind::Byte),
        }
    }

    // The place after the event at `at`, which has to be right.
    fn event(&self, events: &[u8], at: usize) -> Result<usize, Refusal>
        ensures { result ≡ rows.event self.now.bytes.now self.now.objects events.now at }
    {
        self.event_end(events, at).ok_or(Refusal::Event(at))
    }

    // All events, one after the other.
    // The place moves by hand, since each event's kind says its width.
    fn all_events(&self, events: &[u8]) -> Result<usize, Refusal>
        ensures { result ≡ rows.all_events self.now.bytes.now self.now.objects events.now }
    {
        let mut at = 0;
        while at < events.len() {
            at = self.event(events, at)?;
        }
        Ok(at)
    }
}

// Whether a row of events is one of an image that was taken; else the first event that is wrong.
pub fn check_events(image: &[u8], events: &[u8]) -> Result<(), Refusal>
    ensures { result ≡ rows.events image.now events.now }
{
    let image = Image {
        bytes: image,
        objects: two(image, 4),
    };
    let _ = image.all_events(events)?;
    Ok(())
}
