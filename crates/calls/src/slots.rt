// The slots of a caller, who names them by their numbers in its table.
ghost use Rattle.std.specs.Prelude.{◌≡◌, ◌+◌, ◌<◌, ◌≤◌, IfOk, IfSome};
ghost use Rattle.std.specs.Result.{result_ok};
ghost use Rattle.calls.specs.Slots as spec;

use crate::outcomes::Refused;
use board::{Board, Capability, Object};
use space::Table;

// What a slot holds, and where the slot is.
#[derive(Clone, Copy, Debug, PartialEq, Eq)]
pub struct Held {
    pub place: u32,
    pub capability: Capability,
}

// A page's place, and whether it may be written.
#[derive(Clone, Copy, Debug, PartialEq, Eq)]
pub struct Page {
    pub place: u32,
    pub writes: bool,
}

// The place of a slot, if the table has so many.
#[inline]
fn place_in(table: Option<Table>, slot: u32) -> Option<u32>
    ensures { result ≡ spec.place_in table slot }
{
    let table = table?;
    if slot >= table.slots {
        return None;
    }
    table.place.checked_add(slot)
}

// What a slot holds, and where it is.
#[inline]
pub fn full(board: &mut Board, table: Option<Table>, slot: u32) -> Result<Held, Refused>
    ensures value { result_ok result ≡ spec.held board.old.bytes table slot }
    ensures bytes { board.new.bytes ≡ board.old.bytes }
    ensures touched { board.new.touched ≤ board.old.touched + 8 }
{
    let place = place_in(table, slot).ok_or(Refused)?;
    let capability = board.slot(place).ok_or(Refused)?;
    Ok(Held { place, capability })
}

// The same, if its rights say reads.
#[inline]
pub fn readable(board: &mut Board, table: Option<Table>, slot: u32) -> Result<Held, Refused>
    ensures value { result_ok result ≡ spec.readable board.old.bytes table slot }
    ensures bytes { board.new.bytes ≡ board.old.bytes }
    ensures touched { board.new.touched ≤ board.old.touched + 8 }
{
    let held = full(board, table, slot)?;
    if !held.capability.rights.reads() {
        return Err(Refused);
    }
    Ok(held)
}

// The same, if its rights say writes.
#[inline]
pub fn writable(board: &mut Board, table: Option<Table>, slot: u32) -> Result<Held, Refused>
    ensures value { result_ok result ≡ spec.writable board.old.bytes table slot }
    ensures bytes { board.new.bytes ≡ board.old.bytes }
    ensures touched { board.new.touched ≤ board.old.touched + 8 }
{
    let held = full(board, table, slot)?;
    if !held.capability.rights.writes() {
        return Err(Refused);
    }
    Ok(held)
}

// The same, if its rights say that it may be handed on.
#[inline]
pub fn grantable(board: &mut Board, table: Option<Table>, slot: u32) -> Result<Held, Refused>
    ensures value { result_ok result ≡ spec.grantable board.old.bytes table slot }
    ensures bytes { board.new.bytes ≡ board.old.bytes }
    ensures touched { board.new.touched ≤ board.old.touched + 8 }
{
    let held = full(board, table, slot)?;
    if !held.capability.rights.hands_on() {
        return Err(Refused);
    }
    Ok(held)
}

// The place of a slot that is there and empty.
#[inline]
pub fn free(board: &mut Board, table: Option<Table>, slot: u32) -> Result<u32, Refused>
    ensures value { result_ok result ≡ spec.free board.old.bytes table slot }
    ensures bytes { board.new.bytes ≡ board.old.bytes }
    ensures touched { board.new.touched ≤ board.old.touched + 8 }
{
    let place = place_in(table, slot).ok_or(Refused)?;
    let None = board.slot(place) else {
        return Err(Refused);
    };
    Ok(place)
}

// The number of the thread that it is, if there is such a thread.
#[inline]
fn thread_of(object: Object) -> Option<usize>
    ensures there { IfSome result (λ i. i < 64) }
    ensures value { result ≡ spec.thread_of object }
{
    match object {
        Object::Thread { index } if index < 64 => Some(index as usize),
        _ => None,
    }
}

// The number of the line that it is, if there is such a line.
#[inline]
fn line_of(object: Object) -> Option<usize>
    ensures there { IfSome result (λ j. j < 32) }
    ensures value { result ≡ spec.line_of object }
{
    match object {
        Object::Line { index } if index < 32 => Some(index as usize),
        _ => None,
    }
}

// The page that a slot leads to, if its rights say reads.
#[inline]
pub fn readable_page(board: &mut Board, table: Option<Table>, slot: u32) -> Result<Page, Refused>
    ensures value { result_ok result ≡ spec.readable_page board.old.bytes table slot }
    ensures bytes { board.new.bytes ≡ board.old.bytes }
    ensures touched { board.new.touched ≤ board.old.touched + 8 }
{
    let capability = readable(board, table, slot)?.capability;
    let Object::Page { place } = capability.object else {
        return Err(Refused);
    };
    Ok(Page {
        place,
        writes: capability.rights.writes(),
    })
}

// The table that it leads to, if its rights say writes.
#[inline]
pub fn writable_table(board: &mut Board, table: Option<Table>, slot: u32) -> Result<Table, Refused>
    ensures value { result_ok result ≡ spec.writable_table board.old.bytes table slot }
    ensures bytes { board.new.bytes ≡ board.old.bytes }
    ensures touched { board.new.touched ≤ board.old.touched + 8 }
{
    let capability = writable(board, table, slot)?.capability;
    let Object::Table { place, slots } = capability.object else {
        return Err(Refused);
    };
    Ok(Table { place, slots })
}

// The thread that it leads to, if its rights say writes.
#[inline]
pub fn writable_thread(board: &mut Board, table: Option<Table>, slot: u32) -> Result<usize, Refused>
    ensures there { IfOk result (λ i. i < 64) }
    ensures value { result_ok result ≡ spec.writable_thread board.old.bytes table slot }
    ensures bytes { board.new.bytes ≡ board.old.bytes }
    ensures touched { board.new.touched ≤ board.old.touched + 8 }
{
    let capability = writable(board, table, slot)?.capability;
    thread_of(capability.object).ok_or(Refused)
}

// The line that it leads to, if its rights say writes.
#[inline]
pub fn writable_line(board: &mut Board, table: Option<Table>, slot: u32) -> Result<usize, Refused>
    ensures there { IfOk result (λ j. j < 32) }
    ensures value { result_ok result ≡ spec.writable_line board.old.bytes table slot }
    ensures bytes { board.new.bytes ≡ board.old.bytes }
    ensures touched { board.new.touched ≤ board.old.touched + 8 }
{
    let capability = writable(board, table, slot)?.capability;
    line_of(capability.object).ok_or(Refused)
}

// The line that it leads to, if its rights say reads.
#[inline]
pub fn readable_line(board: &mut Board, table: Option<Table>, slot: u32) -> Result<usize, Refused>
    ensures there { IfOk result (λ j. j < 32) }
    ensures value { result_ok result ≡ spec.readable_line board.old.bytes table slot }
    ensures bytes { board.new.bytes ≡ board.old.bytes }
    ensures touched { board.new.touched ≤ board.old.touched + 8 }
{
    let capability = readable(board, table, slot)?.capability;
    line_of(capability.object).ok_or(Refused)
}
