// Rights as bits: 1 to read, 2 to write or send, 4 to hand on.
ghost use Rattle.std.specs.Prelude.{◌≡◌, Some};
ghost use Rattle.rights.specs.Vocabulary as spec;
ghost use Rattle.rights.specs.World as world;

use std::error::Error;
use std::fmt;

const READ: u8 = 1;

const WRITE: u8 = 2;

const HAND_ON: u8 = 4;

// No `bitflags!`: its `contains` and `intersection` say no more than the methods here, and the
// definitions name this struct.
#[derive(Clone, Copy, Debug, PartialEq, Eq)]
pub struct Rights {
    bits: u8,
}

// A number with a bit above the three.
#[derive(Clone, Copy, Debug, PartialEq, Eq)]
pub struct UnknownRights {
    pub bits: u32,
}

impl TryFrom<u32> for Rights {
    type Error = UnknownRights;

    ghost try_from_gives = { λ n r. r ≡ spec.rights_or n };

    fn try_from(bits: u32) -> Result<Rights, UnknownRights> {
        if bits > 7 {
            return Err(UnknownRights { bits });
        }
        Ok(Rights { bits: bits as u8 })
    }
}

impl From<Rights> for u8 {
    ghost from_gives = { λ r n. n ≡ r.bits };

    fn from(rights: Rights) -> u8 {
        rights.bits
    }
}

impl fmt::Display for UnknownRights {
    ghost output = { λ e. Some (spec.unknown_rights_text e) };

    fn fmt<W: fmt::Write>(&self, f: &mut fmt::Formatter<W>) -> fmt::Result {
        let bits = self.bits;
        write!(f, "there are no rights with bits {bits}")
    }
}

impl Error for UnknownRights {}

impl Rights {
    // All three.
    pub fn all() -> Rights
        ensures value { result ≡ spec.all_three }
        ensures meaning { spec.rights_of result ≡ spec.everything }
    {
        Rights {
            bits: READ | WRITE | HAND_ON,
        }
    }

    // A name for each right: one test that takes the right as an argument is no plainer where it is
    // used.
    pub fn reads(self) -> bool
        ensures { result ≡ (spec.rights_of self).reads }
    {
        self.bits & READ != 0
    }

    pub fn writes(self) -> bool
        ensures { result ≡ (spec.rights_of self).writes }
    {
        self.bits & WRITE != 0
    }

    pub fn hands_on(self) -> bool
        ensures { result ≡ (spec.rights_of self).hands }
    {
        self.bits & HAND_ON != 0
    }

    // The rights that are in both.
    pub fn meet(self, other: Rights) -> Rights
        ensures value { result ≡ spec.met self other }
        ensures meaning { spec.rights_of result ≡ world.meet (spec.rights_of self) (spec.rights_of other) }
    {
        Rights {
            bits: self.bits & other.bits,
        }
    }
}
