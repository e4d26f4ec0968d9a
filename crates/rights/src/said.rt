// What is said on lines.
ghost use Rattle.std.specs.Prelude.{Some};
ghost use Rattle.rights.specs.Said as spec;

use std::fmt;

// A byte that a line showed, and the line's number.
#[derive(Clone, Copy, Debug, PartialEq, Eq)]
pub struct Said {
    pub line: usize,
    pub byte: u8,
}

impl fmt::Display for Said {
    ghost output = { λ x. Some (spec.said_text x) };

    fn fmt<W: fmt::Write>(&self, f: &mut fmt::Formatter<W>) -> fmt::Result {
        let line = self.line;
        let byte = self.byte;
        write!(f, "{line} {byte:02x}")
    }
}
