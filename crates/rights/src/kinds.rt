// Kinds of objects and their numbers.
ghost use Rattle.std.specs.Prelude.{◌≡◌, Some};
ghost use Rattle.rights.specs.Vocabulary as spec;

use std::error::Error;
use std::fmt;

#[derive(Clone, Copy, Debug, PartialEq, Eq)]
pub enum Kind {
    Pool,
    Table,
    Port,
    Page,
    Thread,
    Line,
}

// A number that is no kind's.
#[derive(Clone, Copy, Debug, PartialEq, Eq)]
pub struct UnknownKind {
    pub number: u8,
}

impl From<Kind> for u8 {
    ghost from_gives = { λ kind n. n ≡ spec.kind_number kind };

    fn from(kind: Kind) -> u8 {
        match kind {
            Kind::Pool => 0,
            Kind::Table => 1,
            Kind::Port => 2,
            Kind::Page => 3,
            Kind::Thread => 4,
            Kind::Line => 5,
        }
    }
}

impl TryFrom<u8> for Kind {
    type Error = UnknownKind;

    ghost try_from_gives = { λ n r. r ≡ spec.kind_or n };

    fn try_from(number: u8) -> Result<Kind, UnknownKind> {
        match number {
            0 => Ok(Kind::Pool),
            1 => Ok(Kind::Table),
            2 => Ok(Kind::Port),
            3 => Ok(Kind::Page),
            4 => Ok(Kind::Thread),
            5 => Ok(Kind::Line),
            _ => Err(UnknownKind { number }),
        }
    }
}

impl fmt::Display for UnknownKind {
    ghost output = { λ e. Some (spec.unknown_kind_text e) };

    fn fmt<W: fmt::Write>(&self, f: &mut fmt::Formatter<W>) -> fmt::Result {
        let number = self.number;
        write!(f, "no kind of object has number {number}")
    }
}

impl Error for UnknownKind {}
