// The registers and the pc of a thread.
ghost use Rattle.std.specs.Prelude.{◌≡◌};
ghost use Rattle.rights.specs.Vocabulary.{words};
ghost use Rattle.rv32.specs.Registers as spec;

use rights::Answer;

#[derive(Clone, Copy, Debug, PartialEq, Eq)]
pub struct Cpu {
    pub pc: u32,
    pub registers: [u32; 32],
}

impl Cpu {
    // A new core: all registers are 0.
    pub fn fresh(pc: u32) -> Cpu
        ensures { result ≡ spec.fresh pc }
    {
        Cpu {
            pc,
            registers: [0; 32],
        }
    }

    // What a register holds: x0 is always 0.
    pub fn get(&self, number: u8) -> u32
        ensures { result ≡ spec.x self.now number }
    {
        match number {
            1..=31 => self.registers[number as usize],
            _ => 0,
        }
    }

    // A write to x0 does nothing.
    pub fn put(&mut self, number: u8, value: u32)
        ensures { self.new ≡ spec.put self.old number value }
    {
        if let 1..=31 = number {
            self.registers[number as usize] = value;
        }
    }

    // On to the instruction after this one, as after a store.
    pub fn advance(&mut self)
        ensures { self.new ≡ spec.next self.old }
    {
        self.pc = self.pc.wrapping_add(4);
    }

    // A register gets a value, and the next instruction is at a pc.
    pub fn go_on(&mut self, register: u8, value: u32, pc: u32)
        ensures { self.new ≡ spec.gone_on self.old register value pc }
    {
        self.put(register, value);
        self.pc = pc;
    }

    // Up to six words go into x10 to x15; more would be left out.
    fn put_words(&mut self, words: &[u32])
        ensures { self.new ≡ spec.puts self.old 10 6 words.now }
    {
        for (register, word) in (10..16u8).zip(words) {
            self.put(register, *word);
        }
    }

    // Goes on after a call: the words that come back are in x10 to x15, the others stay.
    // The words are those of `Answer::word`, which would be asked of each whether it is there.
    pub fn resume(&mut self, answer: Answer)
        ensures { self.new ≡ spec.returned self.old (words answer) }
    {
        match answer {
            Answer::No => self.put_words(&[Answer::NO]),
            Answer::Done => self.put_words(&[0]),
            Answer::Heard(byte) => self.put_words(&[0, u32::from(byte)]),
            Answer::Received { badge, words } => {
                let [a, b, c, d] = words;
                self.put_words(&[0, badge, a, b, c, d]);
            }
        }
        self.advance();
    }
}
