// Slots that leave the ring: each by one walk along the run of a slot, which ends back at that slot or at one that is no deeper.
ghost use Rattle.std.specs.Prelude.{◌+◌, ◌*◌, ◌≡◌, ◌≤◌};
ghost use Rattle.rights.specs.World.{pick};
ghost use Rattle.board.specs.Counted.{more};
ghost use Rattle.chain.specs.Bytes as spec;

use crate::links::{bypass, join};
use board::Board;

// One turn of a walk from `slot`, which lies `depth` deep: `here` is less deep by one, and the next is given; nothing at the end.
#[inline]
fn raise_one(board: &mut Board, slot: u32, depth: u32, here: u32) -> Option<u32>
    ensures value { result ≡ spec.onward board.old.bytes slot depth here }
    ensures bytes { board.new.bytes ≡ spec.raise_one board.old.bytes slot depth here }
    ensures touched { board.new.touched ≡ more board.old.touched (pick (spec.ends board.old.bytes slot depth here) 1 3) }
{
    let deep = board.depth(here);
    if here == slot || deep <= depth {
        return None;
    }
    let next = board.next(here);
    board.put_depth(here, deep - 1);
    Some(next)
}

// The run of `slot` is less deep by one.
fn raise_run(board: &mut Board, slot: u32)
    ensures bytes { board.new.bytes ≡ spec.run_raised board.old.bytes slot }
    ensures touched { board.new.touched ≤ board.old.touched + 3 + 3 * spec.run_length board.old.bytes slot }
{
    let depth = board.depth(slot);
    let mut here = board.next(slot);
    let units = board.units();
    'walk: for _turn in 0..units {
        let Some(next) = raise_one(board, slot, depth, here) else {
            break 'walk;
        };
        here = next;
    }
}

// `slot` leaves the ring, and its run rises.
pub fn take_out(board: &mut Board, slot: u32)
    ensures bytes { board.new.bytes ≡ spec.taken_out board.old.bytes slot }
    ensures touched { board.new.touched ≤ board.old.touched + 7 + 3 * spec.run_length board.old.bytes slot }
{
    raise_run(board, slot);
    bypass(board, slot);
}

// One turn of a walk from `slot`, which lies `depth` deep: `here` is emptied, and the next is given; nothing at the end.
#[inline]
fn empty_one(board: &mut Board, slot: u32, depth: u32, here: u32) -> Option<u32>
    ensures value { result ≡ spec.onward board.old.bytes slot depth here }
    ensures bytes { board.new.bytes ≡ spec.empty_one board.old.bytes slot depth here }
    ensures touched { board.new.touched ≡ more board.old.touched (pick (spec.ends board.old.bytes slot depth here) 1 10) }
{
    let deep = board.depth(here);
    if here == slot || deep <= depth {
        return None;
    }
    let next = board.next(here);
    board.put_slot(here, None);
    Some(next)
}

// The run of `slot` is emptied; the slot after it is given.
fn empty_run(board: &mut Board, slot: u32) -> u32
    ensures value { result ≡ (spec.run_emptied board.old.bytes slot).1 }
    ensures bytes { board.new.bytes ≡ (spec.run_emptied board.old.bytes slot).0 }
    ensures touched { board.new.touched ≤ board.old.touched + 3 + 10 * spec.run_length board.old.bytes slot }
{
    let depth = board.depth(slot);
    let mut here = board.next(slot);
    let units = board.units();
    'walk: for _turn in 0..units {
        let Some(next) = empty_one(board, slot, depth, here) else {
            break 'walk;
        };
        here = next;
    }
    here
}

// What was made from `slot` is emptied and leaves the ring.
pub fn sweep(board: &mut Board, slot: u32)
    ensures bytes { board.new.bytes ≡ spec.swept board.old.bytes slot }
    ensures touched { board.new.touched ≤ board.old.touched + 5 + 10 * spec.run_length board.old.bytes slot }
{
    let end = empty_run(board, slot);
    join(board, slot, end);
}
