// An image, written field by field, low bytes first.
ghost use Rattle.std.specs.Prelude.{◌≡◌, ◌++◌, ◌∷◌, [], List, ℕ, OnOk};
ghost use Rattle.image_builder.specs.Written as written;

use rights::Kind;
use std::alloc::{AllocError, Global};
use std::marker::Model;

// An image as far as it is written: a clause sees its bytes.
#[derive(Drop)]
pub struct ImageBuilder {
    bytes: Vec<u8>,
}

impl Model for ImageBuilder {
    ghost Value = { List ℕ };

    ghost view = { λ image. image.bytes.items };
}

impl ImageBuilder {
    pub fn new(heap: Global) -> ImageBuilder
        ensures { result ≡ [] }
    {
        ImageBuilder {
            bytes: Vec::new(heap),
        }
    }

    // What was written.
    pub fn finish(self) -> Vec<u8>
        ensures { result.items ≡ self }
    {
        self.bytes
    }

    // Some bytes as they are.
    pub fn write(&mut self, bytes: &[u8]) -> Result<(), AllocError>
        ensures { OnOk result (self.new ≡ self.old ++ bytes.now) }
    {
        self.bytes.extend_from_slice(bytes)
    }

    // Some bytes of 0: empty slots, a blank page, a thread with nothing.
    #[tactic(auto, unfolding(crate::specs::Written::zeros))]
    pub fn zeros(&mut self, count: usize) -> Result<(), AllocError>
        ensures { OnOk result (self.new ≡ self.old ++ written.zeros count) }
    {
        let end = self.bytes.len().saturating_add(count);
        self.bytes.resize(end, 0)
    }

    // "HOLD" and the number of objects.
    pub fn begin(&mut self, objects: u16) -> Result<(), AllocError>
        ensures { OnOk result (self.new ≡ self.old ++ written.start objects) }
    {
        self.write(b"HOLD")?;
        self.write(&objects.to_le_bytes())
    }

    pub fn header(&mut self, kind: Kind, size: u16) -> Result<(), AllocError>
        ensures { OnOk result (self.new ≡ self.old ++ written.header kind size) }
    {
        let [low, high] = size.to_le_bytes();
        self.write(&[u8::from(kind), low, high])
    }

    // A slot, with the number of an object plus 1, or 0.
    pub fn slot(&mut self, object: u16, rights: u8, badge: u32) -> Result<(), AllocError>
        ensures { OnOk result (self.new ≡ self.old ++ written.slot object rights badge) }
    {
        self.write(&object.to_le_bytes())?;
        self.write(&[rights])?;
        self.write(&badge.to_le_bytes())
    }

    // A page that begins with some bytes, and is 0 from there on.
    pub fn page(&mut self, bytes: &[u8]) -> Result<(), AllocError>
        ensures { OnOk result (self.new ≡ self.old ++ written.page bytes.now) }
    {
        self.write(bytes)?;
        self.zeros(4096usize.saturating_sub(bytes.len()))
    }

    // One page of a space, with the number of a page plus 1, or 0.
    pub fn mapping(&mut self, page: u16, mark: u8) -> Result<(), AllocError>
        ensures { OnOk result (self.new ≡ self.old ++ written.mapping page mark) }
    {
        self.write(&page.to_le_bytes())?;
        self.write(&[mark])
    }

    // Where a thread begins: its table's number plus 1, or 0.
    pub fn table(&mut self, table: u16) -> Result<(), AllocError>
        ensures { OnOk result (self.new ≡ self.old ++ written.table table) }
    {
        self.write(&table.to_le_bytes())
    }

    // Where it ends, after 64 pages of its space: 1 if it is ready, and its pc.
    pub fn begins(&mut self, ready: u8, pc: u32) -> Result<(), AllocError>
        ensures { OnOk result (self.new ≡ self.old ++ written.begins ready pc) }
    {
        self.write(&[ready])?;
        self.write(&pc.to_le_bytes())
    }
}
