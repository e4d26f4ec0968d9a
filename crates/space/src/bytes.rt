// The board's bytes through a space.
ghost use Rattle.std.specs.Prelude.{◌≡◌, ◌⊎◌, is_some, length};
ghost use Rattle.rv32.specs.Execute as core;
ghost use Rattle.space.specs.Bytes as spec;

use crate::tables::PageTables;
use board::parts;
use rv32::{Memory, Width};

// The board as a thread sees it.
#[derive(Drop)]
pub struct Space<'a> {
    pub board: &'a [u8],
    pub pages: &'a PageTables,
}

impl<'a> Space<'a> {
    // The bytes of the page that an address leads to; none where no page is.
    #[inline]
    fn page(&self, address: u32) -> &[u8]
        ensures bytes { result.now ≡ spec.page_seen self.now.board.now self.now.pages.now address }
        ensures whole { (length result.now ≡ 0) ⊎ (length result.now ≡ 4096) }
    {
        match self.pages.look_up(address / 4096) {
            Some(mapping) => parts::page(self.board, mapping.place),
            None => &[],
        }
    }
}

// Two and four bytes at a multiple of their number lie in one page: one look-up, and they are read
// at once.
impl<'a> Memory for Space<'a> {
    ghost seen = { λ s. spec.seen s.board.now s.pages.now };

    fn byte(&self, address: u32) -> Option<u8> {
        self.page(address).get(address as usize % 4096).copied()
    }

    fn half(&self, address: u32) -> Option<u16> {
        if address % 2 != 0 {
            return None;
        }
        let page = self.page(address);
        if page.is_empty() {
            return None;
        }
        let at = address as usize % 4096;
        Some(u16::from_le_bytes([page[at], page[at + 1]]))
    }

    fn word(&self, address: u32) -> Option<u32> {
        if address % 4 != 0 {
            return None;
        }
        let page = self.page(address);
        if page.is_empty() {
            return None;
        }
        let at = address as usize % 4096;
        Some(u32::from_le_bytes([page[at], page[at + 1], page[at + 2], page[at + 3]]))
    }
}

// The place of the page to which `size` bytes may be stored at an address of a space: it is there and
// may be written, and they lie inside it.
#[inline]
fn store_place(board: &[u8], pages: &PageTables, address: u32, size: u32) -> Option<u32>
    ensures { result ≡ spec.store_place board.now pages.now address size }
{
    let mapping = pages.look_up(address / 4096)?;
    let end = address as usize % 4096 + size as usize;
    if !mapping.writes || parts::page(board, mapping.place).len() < end {
        return None;
    }
    Some(mapping.place)
}

// The low bytes of a value go to an address of a space; false, and nothing has changed, where they
// may not.
pub fn store(board: &mut [u8], pages: &PageTables, address: u32, width: Width, value: u32) -> bool
    ensures done { result ≡ is_some (spec.store_place board.old pages.now address (core.size width)) }
    ensures bytes { board.new ≡ spec.stored board.old pages.now address (core.bytes width value) }
{
    let Some(place) = store_place(board, pages, address, width.size()) else {
        return false;
    };
    let [a, b, c, d] = value.to_le_bytes();
    match width {
        Width::Byte => parts::store(board, place, address % 4096, &[a]),
        Width::Half => parts::store(board, place, address % 4096, &[a, b]),
        Width::Word => parts::store(board, place, address % 4096, &[a, b, c, d]),
    }
    true
}
