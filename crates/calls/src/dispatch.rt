// Which call is made.
ghost use Rattle.std.specs.Prelude.{◌≡◌, ◌+◌, ◌≤◌};
ghost use Rattle.board.specs.Counted.{more};
ghost use Rattle.calls.specs.Calls as spec;
ghost use Rattle.calls.specs.Counts.{most, most_of};
ghost use Rattle.calls.specs.Machine.{table_of};

use crate::capabilities::{copy, let_go, revoke, shift};
use crate::lines::{hear, say};
use crate::outcomes::{Outcome, Refused};
use crate::threads::{bind, go, map, unmap};
use board::Board;
use rights::{Answer, Call};
use space::{Side, Table};

// Words of a thread that each call touches: its table.
const TABLE: u64 = 3;

// The table of a thread; none where there is no such thread.
#[inline]
fn table_of(board: &mut Board, side: &Side, thread: usize) -> Option<Table>
    ensures value { result ≡ table_of side.now thread }
    ensures bytes { board.new.bytes ≡ board.old.bytes }
    ensures touched { board.new.touched ≡ more board.old.touched 3 }
{
    board.count(TABLE);
    side.threads.get(thread)?.table
}

// What a call of a thread with a table does, or that it is refused. Cut, send and receive are not built yet.
fn attempt(
    board: &mut Board,
    side: &mut Side,
    table: Option<Table>,
    call: Call,
) -> Result<Outcome, Refused>
    ensures ended { spec.ended board.new.bytes side.new result ≡ spec.called (record { bytes = board.old.bytes; side = side.old }) table call }
    ensures touched { board.new.touched ≤ board.old.touched + most_of board.old.bytes table call }
{
    match call {
        Call::Cut { .. } | Call::Send { .. } | Call::Receive { .. } => return Err(Refused),
        Call::Say { line, byte } => {
            let said = say(board, side, table, line, byte)?;
            return Ok(Outcome::Said(said));
        }
        Call::Hear { line } => {
            let byte = hear(board, side, table, line)?;
            return Ok(Outcome::Answered(Answer::Heard(byte)));
        }
        Call::Copy {
            from,
            into,
            rights,
            badge,
        } => copy(board, table, from, into, rights, badge)?,
        Call::Move { from, into } => shift(board, table, from, into)?,
        Call::Drop { slot } => let_go(board, table, slot)?,
        Call::Revoke { slot } => revoke(board, table, slot)?,
        Call::Map {
            page,
            thread,
            place,
        } => map(board, side, table, page, thread, place)?,
        Call::Unmap { thread, place } => unmap(board, side, table, thread, place)?,
        Call::Bind {
            thread,
            table: slot,
        } => bind(board, side, table, thread, slot)?,
        Call::Go { thread, pc } => go(board, side, table, thread, pc)?,
    }
    Ok(Outcome::Answered(Answer::Done))
}

// What a call of a thread does. One that is refused has the answer no, and nothing has changed.
pub fn call(board: &mut Board, side: &mut Side, thread: usize, call: Call) -> Outcome
    ensures bytes { board.new.bytes ≡ (spec.call (record { bytes = board.old.bytes; side = side.old }) thread call).machine.bytes }
    ensures side { side.new ≡ (spec.call (record { bytes = board.old.bytes; side = side.old }) thread call).machine.side }
    ensures outcome { result ≡ (spec.call (record { bytes = board.old.bytes; side = side.old }) thread call).outcome }
    ensures touched { board.new.touched ≤ board.old.touched + most (record { bytes = board.old.bytes; side = side.old }) thread call }
{
    let table = table_of(board, side, thread);
    match attempt(board, side, table, call) {
        Ok(outcome) => outcome,
        Err(Refused) => Outcome::Answered(Answer::No),
    }
}
