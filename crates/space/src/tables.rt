// A space of 64 pages, through two levels of page tables of 8 entries each.
ghost use Rattle.std.specs.Prelude.{◌≡◌};
ghost use Rattle.space.specs.Tables as spec;

use crate::entries::{Entry, Mapping};

// Entry i of the root is valid once leaf i was used; before that the leaf counts as free.
#[derive(Clone, Copy, Debug, PartialEq, Eq)]
pub struct PageTables {
    pub root: [Entry; 8],
    pub leaves: [[Entry; 8]; 8],
}

// Each page that lies among `units` units from a place on leaves the leaf.
fn free_entries(leaf: &mut [Entry], from: u32, units: u32)
    ensures { leaf.new ≡ spec.freed from units leaf.old }
{
    for entry in leaf.iter_mut() {
        *entry = entry.outside(from, units);
    }
}

impl PageTables {
    // No page is there.
    pub fn fresh() -> PageTables
        ensures { result ≡ spec.fresh }
    {
        PageTables {
            root: [Entry::free(); 8],
            leaves: [[Entry::free(); 8]; 8],
        }
    }

    // The page with a number of the space, if it is there.
    pub fn look_up(&self, page: u32) -> Option<Mapping>
        ensures { result ≡ spec.look_up self.now page }
    {
        let root = self.root.get(page as usize / 8)?;
        if !root.is_valid() {
            return None;
        }
        self.leaves[page as usize / 8][page as usize % 8].mapping()
    }

    // Entry of a page; nothing past the end.
    fn put(&mut self, page: u32, entry: Entry)
        ensures { self.new ≡ spec.put self.old page entry }
    {
        let i = page as usize / 8;
        if i >= 8 {
            return;
        }
        let mut leaf = if self.root[i].is_valid() {
            self.leaves[i]
        } else {
            [Entry::free(); 8]
        };
        leaf[page as usize % 8] = entry;
        self.leaves[i] = leaf;
        self.root[i] = Entry::used();
    }

    // The page at a place of the board is a page of the space; nothing where no page can be.
    pub fn map(&mut self, page: u32, place: u32, writes: bool)
        ensures { self.new ≡ spec.map_page self.old page place writes }
    {
        let Some(entry) = Entry::of(place, writes) else {
            return;
        };
        self.put(page, entry);
    }

    // A page of the space is free.
    pub fn unmap(&mut self, page: u32)
        ensures { self.new ≡ spec.unmap self.old page }
    {
        self.put(page, Entry::free());
    }

    // Each page that lies among `units` units of the board from a place on leaves the space.
    pub fn unmap_range(&mut self, from: u32, units: u32)
        ensures { self.new ≡ spec.unmap_range from units self.old }
    {
        for leaf in self.leaves.iter_mut() {
            free_entries(leaf, from, units);
        }
    }
}
