// What an image has, and which kinds of objects are let in.
ghost use Rattle.std.specs.Prelude.{◌≡◌};
ghost use Rattle.image.specs.Format as format;

use rights::Kind;

// How many objects, threads and lines an image has.
#[derive(Clone, Copy, Debug, PartialEq, Eq)]
pub struct Census {
    pub objects: u16,
    pub threads: u16,
    pub lines: u16,
}

// Which kinds of objects an image may have beside tables, pages, threads and lines.
#[derive(Clone, Copy, Debug, PartialEq, Eq)]
pub struct Kinds {
    pub ports: bool,
    pub pools: bool,
}

impl Kinds {
    // Those that the kernel has so far.
    pub const BUILT: Kinds = Kinds {
        ports: false,
        pools: false,
    };

    pub const ALL: Kinds = Kinds {
        ports: true,
        pools: true,
    };

    pub fn lets_in(self, kind: Kind) -> bool
        ensures { result ≡ format.lets_in self kind }
    {
        match kind {
            Kind::Table | Kind::Page | Kind::Thread | Kind::Line => true,
            Kind::Port => self.ports,
            Kind::Pool => self.pools,
        }
    }
}

// One more than `count`, if that is at most `limit`.
fn one_more(count: u16, limit: u16) -> Option<u16>
    ensures { result ≡ format.one_more count limit }
{
    (count < limit).then(|| count + 1)
}

impl Census {
    // With one more object of a kind; none if there are too many.
    pub(crate) fn with(self, kind: Kind) -> Option<Census>
        ensures { result ≡ format.counted self kind }
    {
        match kind {
            Kind::Thread => Some(Census {
                threads: one_more(self.threads, 64)?,
                ..self
            }),
            Kind::Line => Some(Census {
                lines: one_more(self.lines, 32)?,
                ..self
            }),
            Kind::Pool | Kind::Table | Kind::Port | Kind::Page => Some(self),
        }
    }
}
