// A line: the bytes that came in and are not yet heard.
ghost use Rattle.std.specs.Prelude.{◌≡◌};
ghost use Rattle.space.specs.Lines as spec;

// The first `count` of the bytes wait, the oldest first. `object` is its number in the image.
#[derive(Clone, Copy, Debug, PartialEq, Eq)]
pub struct Line {
    pub bytes: [u8; 1024],
    pub count: u16,
    pub object: u16,
}

impl Line {
    // Nothing waits.
    pub fn fresh(object: u16) -> Line
        ensures { result ≡ spec.fresh object }
    {
        Line {
            bytes: [0; 1024],
            count: 0,
            object,
        }
    }

    // A byte comes in; it is lost where 1,024 wait already.
    pub fn come_in(&mut self, byte: u8)
        ensures { self.new ≡ spec.come_in self.old byte }
    {
        if self.count < 1024 {
            self.bytes[self.count as usize] = byte;
            self.count += 1;
        }
    }

    // The oldest byte is heard, and the rest moves down.
    pub fn hear(&mut self) -> Option<u8>
        ensures byte { result ≡ spec.heard self.old }
        ensures rest { self.new ≡ spec.hear self.old }
    {
        if self.count == 0 || self.count > 1024 {
            return None;
        }
        let byte = self.bytes[0];
        self.bytes.copy_within(1..self.count as usize, 0);
        self.count -= 1;
        Some(byte)
    }
}
