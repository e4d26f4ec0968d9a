// Where the next object's content begins.
ghost use Rattle.std.specs.Prelude.{◌≡◌, ◌+◌, ◌^◌, ◌<◌, ◌≤◌};
ghost use Rattle.image.specs.Meaning as meaning;
ghost use Rattle.replay.specs.Reading as reading;

use image::{Image, head_at};
use rights::Kind;

// Where the next table's slots, page's bytes and thread begin, and how many capabilities were born
// before.
#[derive(Clone, Copy, Debug, PartialEq, Eq)]
pub struct Places {
    pub slots_at: usize,
    pub bytes_at: usize,
    pub thread_at: usize,
    pub born: u64,
}

impl Places {
    // Tables' slots begin after the headers, pages' bytes after them, and threads after these.
    pub(crate) fn first(image: &Image<'_>) -> Places
        ensures same { reading.seen result ≡ meaning.first_places image.now.bytes.now image.now.objects }
        ensures low { reading.Low result }
    {
        let slots_at = head_at(image.objects);
        let bytes_at = image.section(Kind::Table, slots_at).unwrap_or(0);
        let thread_at = image.section(Kind::Page, bytes_at).unwrap_or(0);
        Places {
            slots_at,
            bytes_at,
            thread_at,
            born: 0,
        }
    }

    // The places after object `o`, in whose slots so many capabilities were born.
    pub(crate) fn after(&self, image: &Image<'_>, o: u16, births: u64) -> Places
        requires { reading.Low self.now × (self.now.born + births < 2 ^ 64) }
        ensures same { reading.seen result ≡ reading.after image.now.bytes.now image.now.objects o (reading.seen self.now) births }
        ensures low { reading.Low result }
    {
        Places {
            slots_at: image.part(Kind::Table, o, self.slots_at).unwrap_or(0),
            bytes_at: image.part(Kind::Page, o, self.bytes_at).unwrap_or(0),
            thread_at: image.part(Kind::Thread, o, self.thread_at).unwrap_or(0),
            born: self.born + births,
        }
    }
}
