// Why an image or a row of events is not taken.
ghost use Rattle.std.specs.Prelude.{◌≡◌, Some};
ghost use Rattle.rights.specs.Vocabulary as spec;

use std::error::Error;
use std::fmt;

#[derive(Clone, Copy, Debug, PartialEq, Eq)]
pub enum Refusal {
    // Bytes end too early, or go on: the length, or the first byte too many.
    Length(usize),
    // It does not begin with "HOLD".
    Magic,
    // A kind, size, number, rights or mark that is not right, at its first byte.
    Value(usize),
    // A slot, table or page that names no object, or one of the wrong kind, at its first byte.
    Name(usize),
    // It does not fit into the lent frames: how many would do.
    Frames(u64),
    // An event that is not right, at its first byte.
    Event(usize),
}

impl Refusal {
    // The number that is told. The place is told with it, so this is no conversion to a number.
    pub fn number(self) -> u8
        ensures { result ≡ spec.refusal_number self }
    {
        match self {
            Refusal::Length(_) => 1,
            Refusal::Magic => 2,
            Refusal::Value(_) => 3,
            Refusal::Name(_) => 4,
            Refusal::Frames(_) => 5,
            Refusal::Event(_) => 6,
        }
    }

    // The place that is told.
    pub fn place(self) -> usize
        ensures { result ≡ spec.refusal_place self }
    {
        match self {
            Refusal::Length(at) | Refusal::Value(at) | Refusal::Name(at) | Refusal::Event(at) => at,
            Refusal::Magic => 0,
            Refusal::Frames(needed) => needed as usize,
        }
    }
}

impl fmt::Display for Refusal {
    ghost output = { λ r. Some (spec.refusal_text r) };

    fn fmt<W: fmt::Write>(&self, f: &mut fmt::Formatter<W>) -> fmt::Result {
        let number = self.number();
        let place = self.place();
        write!(f, "refused {number} at {place}")
    }
}

impl Error for Refusal {}
