// Calls on capabilities: what slots hold, and the ring that says what was made from what.
ghost use Rattle.std.specs.Prelude.{◌≡◌, ◌+◌, ◌*◌, ◌≤◌, OnErr};
ghost use Rattle.std.specs.Option.{option_map};
ghost use Rattle.std.specs.Result.{result_ok};
ghost use Rattle.calls.specs.Calls as spec;
ghost use Rattle.calls.specs.Counts.{made_from};

use crate::outcomes::Refused;
use crate::slots::{free, full, grantable};
use board::{Board, Capability, Object};
use chain::{insert_after, shift as shift_links, sweep, take_out};
use rights::Rights;
use space::Table;

// What is made of a capability: no more rights, and a badge if it has none.
#[inline]
fn copied(capability: Capability, rights: Rights, badge: u32) -> Capability
    ensures { result ≡ spec.copied capability rights badge }
{
    Capability {
        object: capability.object,
        rights: capability.rights.meet(rights),
        badge: if capability.badge == 0 {
            badge
        } else {
            capability.badge
        },
    }
}

// Slot `d` holds what is made of slot `s`, and follows it in the ring.
pub fn copy(
    board: &mut Board,
    table: Option<Table>,
    s: u32,
    d: u32,
    rights: Rights,
    badge: u32,
) -> Result<(), Refused>
    ensures done { option_map (λ _. board.new.bytes) (result_ok result) ≡ spec.copy board.old.bytes table s d rights badge }
    ensures refused { OnErr result (board.new.bytes ≡ board.old.bytes) }
    ensures touched { board.new.touched ≤ board.old.touched + 31 }
{
    let held = grantable(board, table, s)?;
    let place = free(board, table, d)?;
    board.put_slot(place, Some(copied(held.capability, rights, badge)));
    insert_after(board, held.place, place);
    Ok(())
}

// Slot `d` takes the place of slot `s`, which is empty then.
pub fn shift(board: &mut Board, table: Option<Table>, s: u32, d: u32) -> Result<(), Refused>
    ensures done { option_map (λ _. board.new.bytes) (result_ok result) ≡ spec.move board.old.bytes table s d }
    ensures refused { OnErr result (board.new.bytes ≡ board.old.bytes) }
    ensures touched { board.new.touched ≤ board.old.touched + 43 }
{
    let held = full(board, table, s)?;
    let place = free(board, table, d)?;
    shift_links(board, held.place, place);
    board.put_slot(place, Some(held.capability));
    board.put_slot(held.place, None);
    Ok(())
}

// Slot `s` is empty and out of the ring.
pub fn let_go(board: &mut Board, table: Option<Table>, s: u32) -> Result<(), Refused>
    ensures done { option_map (λ _. board.new.bytes) (result_ok result) ≡ spec.drop_it board.old.bytes table s }
    ensures refused { OnErr result (board.new.bytes ≡ board.old.bytes) }
    ensures touched { board.new.touched ≤ board.old.touched + 25 + 3 * made_from board.old.bytes table s }
{
    let place = full(board, table, s)?.place;
    take_out(board, place);
    board.put_slot(place, None);
    Ok(())
}

// What was made from slot `s` is in no slot any more. Pools are not built yet.
pub fn revoke(board: &mut Board, table: Option<Table>, s: u32) -> Result<(), Refused>
    ensures done { option_map (λ _. board.new.bytes) (result_ok result) ≡ spec.revoke board.old.bytes table s }
    ensures refused { OnErr result (board.new.bytes ≡ board.old.bytes) }
    ensures touched { board.new.touched ≤ board.old.touched + 22 + 10 * made_from board.old.bytes table s }
{
    let held = full(board, table, s)?;
    if let Object::Pool { .. } = held.capability.object {
        return Err(Refused);
    }
    sweep(board, held.place);
    Ok(())
}
