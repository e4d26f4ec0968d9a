// Calls on lines.
ghost use Rattle.std.specs.Prelude.{◌≡◌, ◌+◌, ◌≤◌, OnErr};
ghost use Rattle.std.specs.Option.{option_map};
ghost use Rattle.std.specs.Result.{result_ok};
ghost use Rattle.board.specs.Counted.{more};
ghost use Rattle.space.specs.Lines as lines;
ghost use Rattle.calls.specs.Calls as spec;

use crate::outcomes::Refused;
use crate::slots::{readable_line, writable_line};
use board::Board;
use rights::Said;
use space::{Line, Side, Table};

// Words of a line that calls touch: the number of its object.
const SAY: u64 = 1;

// The count, read and written, the byte, and the rest, read and written as it moves down.
const HEAR: u64 = 515;

// What is said on a line.
#[inline]
fn shown(board: &mut Board, line: &Line, byte: u32) -> Said
    ensures value { result ≡ spec.shown line.now byte }
    ensures bytes { board.new.bytes ≡ board.old.bytes }
    ensures touched { board.new.touched ≡ more board.old.touched 1 }
{
    board.count(SAY);
    Said {
        line: usize::from(line.object),
        byte: (byte % 256) as u8,
    }
}

// The oldest byte that came in at a line is heard.
#[inline]
fn heard(board: &mut Board, line: &mut Line) -> Option<u8>
    ensures value { result ≡ lines.heard line.old }
    ensures rest { line.new ≡ lines.hear line.old }
    ensures bytes { board.new.bytes ≡ board.old.bytes }
    ensures touched { board.new.touched ≡ more board.old.touched 515 }
{
    board.count(HEAR);
    line.hear()
}

// A byte is said on the line of slot `s`; only its low 8 bits are.
pub fn say(
    board: &mut Board,
    side: &Side,
    table: Option<Table>,
    s: u32,
    byte: u32,
) -> Result<Said, Refused>
    ensures done { result_ok result ≡ spec.say board.old.bytes side.now table s byte }
    ensures bytes { board.new.bytes ≡ board.old.bytes }
    ensures touched { board.new.touched ≤ board.old.touched + 9 }
{
    let line = writable_line(board, table, s)?;
    Ok(shown(board, &side.lines[line], byte))
}

// The oldest byte that came in at the line of slot `s` is heard.
pub fn hear(board: &mut Board, side: &mut Side, table: Option<Table>, s: u32) -> Result<u8, Refused>
    ensures done { option_map (λ b. (b, side.new)) (result_ok result) ≡ spec.hear board.old.bytes side.old table s }
    ensures refused { OnErr result (side.new ≡ side.old) }
    ensures bytes { board.new.bytes ≡ board.old.bytes }
    ensures touched { board.new.touched ≤ board.old.touched + 523 }
{
    let line = readable_line(board, table, s)?;
    heard(board, &mut side.lines[line]).ok_or(Refused)
}
