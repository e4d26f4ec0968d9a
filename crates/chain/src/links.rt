// Slots put into the ring and moved in it: what needs no walk.
ghost use Rattle.std.specs.Prelude.{◌≡◌};
ghost use Rattle.board.specs.Counted.{more};
ghost use Rattle.chain.specs.Bytes as spec;

use board::Board;

// Slot `second` follows slot `first`.
#[inline]
pub fn join(board: &mut Board, first: u32, second: u32)
    ensures bytes { board.new.bytes ≡ spec.joined board.old.bytes first second }
    ensures touched { board.new.touched ≡ more board.old.touched 2 }
{
    board.put_next(first, second);
    board.put_prev(second, first);
}

// Slot `new` goes in right after `slot`.
fn place_after(board: &mut Board, slot: u32, new: u32, depth: u32)
    ensures bytes { board.new.bytes ≡ spec.placed board.old.bytes slot new depth }
    ensures touched { board.new.touched ≡ more board.old.touched 6 }
{
    let next = board.next(slot);
    join(board, new, next);
    join(board, slot, new);
    board.put_depth(new, depth);
}

// Slot `new` goes in right after `slot`, one deeper: it was made from it.
pub fn insert_after(board: &mut Board, slot: u32, new: u32)
    ensures bytes { board.new.bytes ≡ spec.inserted board.old.bytes slot new }
    ensures touched { board.new.touched ≡ more board.old.touched 7 }
{
    let depth = board.depth(slot);
    place_after(board, slot, new, depth.saturating_add(1));
}

// What is before `slot` is followed by what is after it.
#[inline]
pub fn bypass(board: &mut Board, slot: u32)
    ensures bytes { board.new.bytes ≡ spec.bypassed board.old.bytes slot }
    ensures touched { board.new.touched ≡ more board.old.touched 4 }
{
    let prev = board.prev(slot);
    let next = board.next(slot);
    join(board, prev, next);
}

// Slot `new` takes the place of `slot` in the ring.
pub fn shift(board: &mut Board, slot: u32, new: u32)
    ensures bytes { board.new.bytes ≡ spec.shifted board.old.bytes slot new }
    ensures touched { board.new.touched ≡ more board.old.touched 11 }
{
    let depth = board.depth(slot);
    place_after(board, slot, new, depth);
    bypass(board, slot);
}
