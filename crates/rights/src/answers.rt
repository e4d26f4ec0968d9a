// What comes back from a call: up to six words.
ghost use Rattle.std.specs.Prelude.{◌≡◌};
ghost use Rattle.rights.specs.Vocabulary as spec;

#[derive(Clone, Copy, Debug, PartialEq, Eq)]
pub enum Answer {
    // The call can't be done, and nothing has changed.
    No,
    Done,
    // A byte that was heard at a line.
    Heard(u8),
    // A message that was received at a port.
    Received { badge: u32, words: [u32; 4] },
}

impl Answer {
    // The first word of a call that can't be done.
    pub const NO: u32 = 0xffff_ffff;

    // The word at a place, if there is one.
    pub fn word(&self, index: usize) -> Option<u32>
        ensures { result ≡ spec.word_at (spec.words self.now) index }
    {
        match self {
            Answer::No => [Answer::NO].get(index).copied(),
            Answer::Done => [0].get(index).copied(),
            Answer::Heard(byte) => [0, u32::from(*byte)].get(index).copied(),
            Answer::Received { badge, words } => {
                let [a, b, c, d] = *words;
                [0, *badge, a, b, c, d].get(index).copied()
            }
        }
    }
}
