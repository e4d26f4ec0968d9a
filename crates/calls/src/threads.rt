// Calls on threads.
ghost use Rattle.std.specs.Prelude.{◌≡◌, ◌+◌, ◌≤◌, OnErr};
ghost use Rattle.std.specs.Option.{option_map};
ghost use Rattle.std.specs.Result.{result_ok};
ghost use Rattle.board.specs.Counted.{more};
ghost use Rattle.calls.specs.Calls as spec;

use crate::outcomes::Refused;
use crate::slots::{Page, readable_page, writable_table, writable_thread};
use board::Board;
use rv32::Cpu;
use space::{Side, State, Table, Thread};

// Words of a thread that calls touch: two entries read, a leaf and an entry of the root rewritten.
const MAP: u64 = 20;

// An entry of the root read, a leaf and that entry rewritten.
const UNMAP: u64 = 18;

// The state and the table.
const BIND: u64 = 4;

// The state, read and written, the pc and the registers.
const GO: u64 = 38;

// A page is a page of a thread's space, which has to be free.
#[inline]
fn map_page(board: &mut Board, thread: &mut Thread, place: u32, page: Page) -> Result<(), Refused>
    ensures done { option_map (λ _. thread.new) (result_ok result) ≡ spec.mapped place page thread.old }
    ensures refused { OnErr result (thread.new ≡ thread.old) }
    ensures bytes { board.new.bytes ≡ board.old.bytes }
    ensures touched { board.new.touched ≡ more board.old.touched 20 }
{
    board.count(MAP);
    if place >= 64 {
        return Err(Refused);
    }
    let None = thread.pages.look_up(place) else {
        return Err(Refused);
    };
    thread.pages.map(place, page.place, page.writes);
    Ok(())
}

// A page of a thread's space is free.
#[inline]
fn unmap_page(board: &mut Board, thread: &mut Thread, place: u32) -> Result<(), Refused>
    ensures done { option_map (λ _. thread.new) (result_ok result) ≡ spec.unmapped place thread.old }
    ensures refused { OnErr result (thread.new ≡ thread.old) }
    ensures bytes { board.new.bytes ≡ board.old.bytes }
    ensures touched { board.new.touched ≡ more board.old.touched 18 }
{
    board.count(UNMAP);
    if place >= 64 {
        return Err(Refused);
    }
    thread.pages.unmap(place);
    Ok(())
}

// A stopped thread's slots are those of a table.
#[inline]
fn bind_table(board: &mut Board, thread: &mut Thread, table: Table) -> Result<(), Refused>
    ensures done { option_map (λ _. thread.new) (result_ok result) ≡ spec.bound table thread.old }
    ensures refused { OnErr result (thread.new ≡ thread.old) }
    ensures bytes { board.new.bytes ≡ board.old.bytes }
    ensures touched { board.new.touched ≡ more board.old.touched 4 }
{
    board.count(BIND);
    let State::Stopped = thread.state else {
        return Err(Refused);
    };
    thread.table = Some(table);
    Ok(())
}

// A stopped thread is ready and new.
#[inline]
fn start(board: &mut Board, thread: &mut Thread, pc: u32) -> Result<(), Refused>
    ensures done { option_map (λ _. thread.new) (result_ok result) ≡ spec.started pc thread.old }
    ensures refused { OnErr result (thread.new ≡ thread.old) }
    ensures bytes { board.new.bytes ≡ board.old.bytes }
    ensures touched { board.new.touched ≡ more board.old.touched 38 }
{
    board.count(GO);
    let State::Stopped = thread.state else {
        return Err(Refused);
    };
    thread.state = State::Ready;
    thread.cpu = Cpu::fresh(pc);
    Ok(())
}

// The page of slot `s` is page `place` of the space of the thread of slot `t`; it may be written if slot `s` may.
pub fn map(
    board: &mut Board,
    side: &mut Side,
    table: Option<Table>,
    s: u32,
    t: u32,
    place: u32,
) -> Result<(), Refused>
    ensures done { option_map (λ _. side.new) (result_ok result) ≡ spec.map board.old.bytes side.old table s t place }
    ensures refused { OnErr result (side.new ≡ side.old) }
    ensures bytes { board.new.bytes ≡ board.old.bytes }
    ensures touched { board.new.touched ≤ board.old.touched + 36 }
{
    let page = readable_page(board, table, s)?;
    let thread = writable_thread(board, table, t)?;
    map_page(board, &mut side.threads[thread], place, page)
}

// Page `place` of the space of the thread of slot `t` is free.
pub fn unmap(
    board: &mut Board,
    side: &mut Side,
    table: Option<Table>,
    t: u32,
    place: u32,
) -> Result<(), Refused>
    ensures done { option_map (λ _. side.new) (result_ok result) ≡ spec.unmap board.old.bytes side.old table t place }
    ensures refused { OnErr result (side.new ≡ side.old) }
    ensures bytes { board.new.bytes ≡ board.old.bytes }
    ensures touched { board.new.touched ≤ board.old.touched + 26 }
{
    let thread = writable_thread(board, table, t)?;
    unmap_page(board, &mut side.threads[thread], place)
}

// The slots of the thread of slot `t`, which is stopped, are those of the table of slot `s`.
pub fn bind(
    board: &mut Board,
    side: &mut Side,
    table: Option<Table>,
    t: u32,
    s: u32,
) -> Result<(), Refused>
    ensures done { option_map (λ _. side.new) (result_ok result) ≡ spec.bind board.old.bytes side.old table t s }
    ensures refused { OnErr result (side.new ≡ side.old) }
    ensures bytes { board.new.bytes ≡ board.old.bytes }
    ensures touched { board.new.touched ≤ board.old.touched + 20 }
{
    let new_table = writable_table(board, table, s)?;
    let thread = writable_thread(board, table, t)?;
    bind_table(board, &mut side.threads[thread], new_table)
}

// The thread of slot `t`, which is stopped, is ready and new.
pub fn go(
    board: &mut Board,
    side: &mut Side,
    table: Option<Table>,
    t: u32,
    pc: u32,
) -> Result<(), Refused>
    ensures done { option_map (λ _. side.new) (result_ok result) ≡ spec.go board.old.bytes side.old table t pc }
    ensures refused { OnErr result (side.new ≡ side.old) }
    ensures bytes { board.new.bytes ≡ board.old.bytes }
    ensures touched { board.new.touched ≤ board.old.touched + 46 }
{
    let thread = writable_thread(board, table, t)?;
    start(board, &mut side.threads[thread], pc)
}
