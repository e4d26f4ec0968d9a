// Memory as the core sees it, and what a load reads there.
ghost use Rattle.std.specs.Prelude.{◌≡◌, ℕ};
ghost use Rattle.rv32.specs.Execute as spec;

use crate::forms::Loading;

// `seen` is the byte at an address, 256 where no page is. An implementor gives `byte`, and may have
// quicker ways to read two and four bytes, which are at a multiple of their number.
pub trait Memory {
    ghost seen: { Self → ℕ → ℕ };

    fn byte(&self, address: u32) -> Option<u8>
        ensures { spec.number result ≡ seen self.now address };

    fn half(&self, address: u32) -> Option<u16>
        ensures { result ≡ spec.aligned (seen self.now) address 2 }
    {
        if address % 2 != 0 {
            return None;
        }
        let a = self.byte(address)?;
        let b = self.byte(address + 1)?;
        Some(u16::from_le_bytes([a, b]))
    }

    fn word(&self, address: u32) -> Option<u32>
        ensures { result ≡ spec.aligned (seen self.now) address 4 }
    {
        if address % 4 != 0 {
            return None;
        }
        let low = self.half(address)?;
        let high = self.half(address + 2)?;
        Some(u32::from(high) << 16 | u32::from(low))
    }
}

// A byte may be at any address.
fn byte_at<M: Memory>(memory: &M, address: u32) -> Option<u8>
    ensures { result ≡ spec.aligned (M.seen memory.now) address 1 }
{
    memory.byte(address)
}

// What a load reads, extended to 32 bits.
pub fn loaded<M: Memory>(memory: &M, what: Loading, address: u32) -> Option<u32>
    ensures { result ≡ spec.loaded (M.seen memory.now) what address }
{
    match what {
        Loading::Lb => Some(i32::from(byte_at(memory, address)?.cast_signed()).cast_unsigned()),
        Loading::Lh => Some(i32::from(memory.half(address)?.cast_signed()).cast_unsigned()),
        Loading::Lw => memory.word(address),
        Loading::Lbu => Some(u32::from(byte_at(memory, address)?)),
        Loading::Lhu => Some(u32::from(memory.half(address)?)),
    }
}
