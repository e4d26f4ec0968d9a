// One entry of a page table, a word in Sv32's order of bits.
ghost use Rattle.std.specs.Prelude.{◌≡◌, ◌+◌, ◌*◌, ◌^◌, ◌<◌};
ghost use Rattle.space.specs.Entries as spec;

const VALID: u32 = 1;

const READ: u32 = 2;

const WRITE: u32 = 4;

// The frame number stands from this bit on.
const FRAME: u32 = 10;

// A page of a space: where it is on the board, and whether it may be written.
#[derive(Clone, Copy, Debug, PartialEq, Eq)]
pub struct Mapping {
    pub place: u32,
    pub writes: bool,
}

#[derive(Clone, Copy, Debug, PartialEq, Eq)]
pub struct Entry {
    pub word: u32,
}

// A frame number and the bits below it.
fn joined(frame: u32, bits: u32) -> u32
    requires { (frame < 2 ^ 22) × (bits < 2 ^ 10) }
    ensures { result ≡ frame * 2 ^ 10 + bits }
{
    frame << FRAME | bits
}

impl Entry {
    // No page is there.
    pub fn free() -> Entry
        ensures { result ≡ spec.free }
    {
        Entry { word: 0 }
    }

    // An entry of the root whose leaf is used: as in Sv32 it can neither be read nor written itself.
    pub fn used() -> Entry
        ensures { result ≡ spec.used }
    {
        Entry { word: VALID }
    }

    // The entry for the page at a place of the board, to be written too or read only. None where no
    // page can be: a page begins at a frame, and its number has 22 bits here.
    pub fn of(place: u32, writes: bool) -> Option<Entry>
        ensures { result ≡ spec.entry_of place writes }
    {
        if place % 64 != 1 || place >= 1 << 28 {
            return None;
        }
        let bits = if writes {
            VALID | READ | WRITE
        } else {
            VALID | READ
        };
        Some(Entry {
            word: joined(place / 64, bits),
        })
    }

    pub fn is_valid(self) -> bool
        ensures { result ≡ spec.is_valid self }
    {
        self.word & VALID != 0
    }

    pub fn writes(self) -> bool
        ensures { result ≡ spec.writes self }
    {
        self.word & WRITE != 0
    }

    // The place of the page's first unit; places count from 1.
    pub fn place(self) -> u32
        ensures { result ≡ spec.place self }
    {
        (self.word >> FRAME) * 64 + 1
    }

    // The page that it leads to, if it leads to one.
    pub fn mapping(self) -> Option<Mapping>
        ensures { result ≡ spec.mapping self }
    {
        if !self.is_valid() {
            return None;
        }
        Some(Mapping {
            place: self.place(),
            writes: self.writes(),
        })
    }

    // Free if its page lies among `units` units from a place on, else as it was.
    pub fn outside(self, from: u32, units: u32) -> Entry
        ensures { result ≡ spec.outside from units self }
    {
        let place = self.place();
        if from <= place && place - from < units {
            return Entry::free();
        }
        self
    }
}
