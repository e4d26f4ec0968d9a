// What is told of an image or a row of events. The tables of the tests hold numbers and places, and
// no `Refusal`, since the numbers are under test.
ghost use Rattle.std.specs.Prelude.{◌≡◌, MatchResult};
ghost use Rattle.rights.specs.Vocabulary.{refusal_number, refusal_place};

use rights::Refusal;

// Taken, or the number and the place of the refusal.
pub type Told = Result<(), (u8, usize)>;

pub const TAKEN: Told = Ok(());

pub fn told<T: Drop>(res: Result<T, Refusal>) -> Told
    ensures { MatchResult res
        (λ _. result ≡ Ok tt)
        (λ refusal. result ≡ Err (refusal_number refusal, refusal_place refusal)) }
{
    res.map(|_| ())
        .map_err(|refusal| (refusal.number(), refusal.place()))
}
