// What a thread sees of the world through its space.
ghost use Rattle.std.specs.Prelude.{◌≡◌, ℕ};
ghost use Rattle.model.specs.Plain as plain;
ghost use Rattle.model.specs.Turns as turns;

use crate::objects::{Mapping, Object, World};
use rv32::Memory;

impl Object {
    // The byte at a place of a page, 0 of anything else.
    pub fn byte(&self, k: usize) -> u8
        ensures { result ≡ turns.byte_in (plain.thing self.now) k }
    {
        match self {
            Object::Page { bytes, .. } => bytes.get(k).copied().unwrap_or(0),
            _ => 0,
        }
    }
}

impl Mapping {
    pub fn new(page: Option<usize>, writes: bool) -> Mapping
        ensures { result ≡ plain.mapping_of page writes }
    {
        match page {
            None => Mapping::Unmapped { writes },
            Some(page) => Mapping::Mapped { writes, page },
        }
    }

    pub fn page(self) -> Option<usize>
        ensures { result ≡ plain.page_in self }
    {
        match self {
            Mapping::Unmapped { .. } => None,
            Mapping::Mapped { page, .. } => Some(page),
        }
    }

    pub fn writes(self) -> bool
        ensures { result ≡ plain.mark_in self }
    {
        match self {
            Mapping::Unmapped { writes } | Mapping::Mapped { writes, .. } => writes,
        }
    }
}

// The page at a place of a space, none past the end.
pub fn page_at(pages: &[Mapping], i: usize) -> Option<usize>
    ensures { result ≡ plain.page_at pages.now i }
{
    pages.get(i)?.page()
}

// The space of a thread.
#[derive(Drop)]
pub struct Space<'a> {
    pub world: &'a World,
    pub pages: &'a [Mapping],
}

impl<'a> Memory for Space<'a> {
    ghost seen = { λ s. turns.seen (plain.plain s.world.now) s.pages.now };

    fn byte(&self, address: u32) -> Option<u8> {
        let o = page_at(self.pages, address as usize / 4096)?;
        let k = address as usize % 4096;
        Some(self.world.get(o).map_or(0, |it| it.byte(k)))
    }
}
