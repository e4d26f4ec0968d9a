// Memory of 4,096 bytes from 0 on.
ghost use Rattle.std.specs.Prelude.{◌≡◌};
ghost use Rattle.rv32.specs.Execute.{bytes as bytes_of};
ghost use Rattle.rv32_tests.specs.Ticked as spec;

use rv32::{Memory, Width};

#[derive(Drop)]
pub struct Ram {
    pub bytes: [u8; 4096],
}

impl Ram {
    // All bytes are 0.
    pub fn blank() -> Ram
        ensures { result ≡ spec.blank }
    {
        Ram { bytes: [0; 4096] }
    }

    pub fn put(&mut self, address: usize, byte: u8)
        ensures { self.new ≡ spec.put_byte self.old address byte }
    {
        // Tried: of a write through the get_mut of an array no element is known.
        if address < 4096 {
            self.bytes[address] = byte;
        }
    }

    pub fn store(&mut self, address: u32, width: Width, value: u32)
        ensures { self.new ≡ spec.put_bytes self.old address (bytes_of width value) }
    {
        let bytes = value.to_le_bytes();
        let low = &bytes[..width.size() as usize];
        for (i, byte) in low.iter().enumerate() {
            self.put(address as usize + i, *byte);
        }
    }

    // An instruction at 16, and eight bytes at 0x100: 80 7f ff 01 00 80 34 12.
    pub fn hold(&mut self, word: u32)
        ensures { self.new ≡ spec.held self.old word }
    {
        self.store(16, Width::Word, word);
        self.store(0x100, Width::Word, 0x01ff_7f80);
        self.store(0x104, Width::Word, 0x1234_8000);
    }
}

impl Memory for Ram {
    ghost seen = { spec.byte_of };

    fn byte(&self, address: u32) -> Option<u8> {
        self.bytes.get(address as usize).copied()
    }
}
