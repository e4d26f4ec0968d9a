// The links of a slot, each a word of its unit behind the content: how deep it is in the ring of slots,
// the places of the next and the previous one, and a place that only the revoke of a pool uses.
ghost use Rattle.std.specs.Prelude.{◌≡◌};
ghost use Rattle.board.specs.Links as spec;

use crate::words::{put_word, word};

const DEPTH: usize = 8;

const NEXT: usize = 9;

const PREV: usize = 10;

const UP: usize = 11;

#[inline]
pub fn depth(board: &[u8], place: u32) -> u32
    ensures { result ≡ (spec.cell board.now place).depth }
{
    word(board, place, DEPTH)
}

#[inline]
pub fn put_depth(board: &mut [u8], place: u32, value: u32)
    ensures { board.new ≡ spec.put_depth board.old place value }
{
    put_word(board, place, DEPTH, value);
}

#[inline]
pub fn next(board: &[u8], place: u32) -> u32
    ensures { result ≡ (spec.cell board.now place).next }
{
    word(board, place, NEXT)
}

#[inline]
pub fn put_next(board: &mut [u8], place: u32, value: u32)
    ensures { board.new ≡ spec.put_next board.old place value }
{
    put_word(board, place, NEXT, value);
}

#[inline]
pub fn prev(board: &[u8], place: u32) -> u32
    ensures { result ≡ (spec.cell board.now place).prev }
{
    word(board, place, PREV)
}

#[inline]
pub fn put_prev(board: &mut [u8], place: u32, value: u32)
    ensures { board.new ≡ spec.put_prev board.old place value }
{
    put_word(board, place, PREV, value);
}

#[inline]
pub fn up(board: &[u8], place: u32) -> u32
    ensures { result ≡ (spec.cell board.now place).up }
{
    word(board, place, UP)
}

#[inline]
pub fn put_up(board: &mut [u8], place: u32, value: u32)
    ensures { board.new ≡ spec.put_up board.old place value }
{
    put_word(board, place, UP, value);
}
