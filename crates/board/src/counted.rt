// The board with a count of the words that are touched. Calls reach slots and links by these methods
// alone, so that the count is what they touched. A place that is not there counts as if it were.
ghost use Rattle.std.specs.Prelude.{[], ◌≡◌, ◌*◌, ◌/◌, length};
ghost use Rattle.std.specs.Borrow.{Array, Lends, sem, u8 as byte};
ghost use Rattle.board.specs.contracts.counted.Board.{the_row};
ghost use Rattle.board.specs.Links as links;
ghost use Rattle.board.specs.Parts as parts;
ghost use Rattle.board.specs.Slots as slots;
ghost use mir.Syntax.{named};

use crate::slots::Capability;
use crate::{links, parts, slots};
use std::marker::Model;

#[derive(Drop)]
pub struct Board<'a> {
    bytes: &'a mut [u8],
    touched: u64,
}

// A board is its bytes and its count.
impl<'a> Model for Board<'a> {
    ghost use Rattle.board.specs.Counted.{Lent};

    ghost Value = { Lent };

    ghost view = { λ b. record { bytes = b.bytes.now; touched = b.touched } };
}

impl<'a> Board<'a> {
    ghost use Rattle.board.specs.Counted.{more, with_bytes};

    // No word is touched yet.
    pub fn new(bytes: &'a mut [u8]) -> Board<'a>
        ensures bytes { result.bytes ≡ bytes.old }
        ensures touched { result.touched ≡ 0 }
    {
        Board { bytes, touched: 0 }
    }

    pub fn touched(&self) -> u64
        ensures { result ≡ self.now.touched }
    {
        self.touched
    }

    // How many units there are.
    pub fn units(&self) -> usize
        ensures { result ≡ length self.now.bytes / 64 }
    {
        self.bytes.len() / 64
    }

    // The bytes, for the instructions of threads, which are not counted.
    #[inline]
    pub fn bytes(&self) -> &[u8]
        ensures { result.now ≡ self.now.bytes }
    {
        self.bytes
    }

    // The same to be written.
    #[inline]
    pub fn bytes_mut(&mut self) -> &mut [u8]
        ensures* writes_back { sem 𝓛 (Lends (the_row (record { mir = named 1; lft = [] })) (Array byte 0) self.entry result (with_bytes self.old)) }
        ensures value { result.now ≡ self.old.bytes }
    {
        &mut *self.bytes
    }

    // Words are touched; those beside the board are counted by this alone.
    #[inline]
    pub fn count(&mut self, words: u64)
        ensures bytes { self.new.bytes ≡ self.old.bytes }
        ensures touched { self.new.touched ≡ more self.old.touched words }
    {
        self.touched = self.touched.saturating_add(words);
    }

    // What the slot at a place holds.
    #[inline]
    pub fn slot(&mut self, place: u32) -> Option<Capability>
        ensures value { result ≡ slots.slot_at self.old.bytes place }
        ensures bytes { self.new.bytes ≡ self.old.bytes }
        ensures touched { self.new.touched ≡ more self.old.touched 8 }
    {
        self.count(8);
        slots::slot_at(self.bytes(), place)
    }

    #[inline]
    pub fn put_slot(&mut self, place: u32, slot: Option<Capability>)
        ensures bytes { self.new.bytes ≡ slots.put_slot self.old.bytes place slot }
        ensures touched { self.new.touched ≡ more self.old.touched 8 }
    {
        self.count(8);
        slots::put_slot(self.bytes_mut(), place, slot);
    }

    #[inline]
    pub fn depth(&mut self, place: u32) -> u32
        ensures value { result ≡ (links.cell self.old.bytes place).depth }
        ensures bytes { self.new.bytes ≡ self.old.bytes }
        ensures touched { self.new.touched ≡ more self.old.touched 1 }
    {
        self.count(1);
        links::depth(self.bytes(), place)
    }

    #[inline]
    pub fn put_depth(&mut self, place: u32, value: u32)
        ensures bytes { self.new.bytes ≡ links.put_depth self.old.bytes place value }
        ensures touched { self.new.touched ≡ more self.old.touched 1 }
    {
        self.count(1);
        links::put_depth(self.bytes_mut(), place, value);
    }

    #[inline]
    pub fn next(&mut self, place: u32) -> u32
        ensures value { result ≡ (links.cell self.old.bytes place).next }
        ensures bytes { self.new.bytes ≡ self.old.bytes }
        ensures touched { self.new.touched ≡ more self.old.touched 1 }
    {
        self.count(1);
        links::next(self.bytes(), place)
    }

    #[inline]
    pub fn put_next(&mut self, place: u32, value: u32)
        ensures bytes { self.new.bytes ≡ links.put_next self.old.bytes place value }
        ensures touched { self.new.touched ≡ more self.old.touched 1 }
    {
        self.count(1);
        links::put_next(self.bytes_mut(), place, value);
    }

    #[inline]
    pub fn prev(&mut self, place: u32) -> u32
        ensures value { result ≡ (links.cell self.old.bytes place).prev }
        ensures bytes { self.new.bytes ≡ self.old.bytes }
        ensures touched { self.new.touched ≡ more self.old.touched 1 }
    {
        self.count(1);
        links::prev(self.bytes(), place)
    }

    #[inline]
    pub fn put_prev(&mut self, place: u32, value: u32)
        ensures bytes { self.new.bytes ≡ links.put_prev self.old.bytes place value }
        ensures touched { self.new.touched ≡ more self.old.touched 1 }
    {
        self.count(1);
        links::put_prev(self.bytes_mut(), place, value);
    }

    #[inline]
    pub fn up(&mut self, place: u32) -> u32
        ensures value { result ≡ (links.cell self.old.bytes place).up }
        ensures bytes { self.new.bytes ≡ self.old.bytes }
        ensures touched { self.new.touched ≡ more self.old.touched 1 }
    {
        self.count(1);
        links::up(self.bytes(), place)
    }

    #[inline]
    pub fn put_up(&mut self, place: u32, value: u32)
        ensures bytes { self.new.bytes ≡ links.put_up self.old.bytes place value }
        ensures touched { self.new.touched ≡ more self.old.touched 1 }
    {
        self.count(1);
        links::put_up(self.bytes_mut(), place, value);
    }

    // So many units from a place on are 0 throughout, each of sixteen words.
    pub fn clear(&mut self, place: u32, units: u32)
        ensures bytes { self.new.bytes ≡ parts.cleared self.old.bytes place units }
        ensures touched { self.new.touched ≡ more self.old.touched (16 * units) }
    {
        self.count(16 * u64::from(units));
        parts::clear(self.bytes_mut(), place, units);
    }
}
