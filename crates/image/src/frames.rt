// Where objects lie in the lent frames. Places are counted in units of 64 bytes, 64 to a frame.
ghost use Rattle.std.specs.Prelude.{◌≡◌, ◌+◌, ◌*◌, ◌^◌, ◌<◌, ◌≤◌};
ghost use Rattle.image.specs.Layout as layout;

use crate::headers::{kind_of, size_at};
use rights::Kind;

// Where object `o` begins, if `used` units lie before it.
fn begins(image: &[u8], o: u16, used: u64) -> u64
    requires { used < 2 ^ 60 }
    ensures { (result ≡ layout.begins image.now o used) × (result < used + 64) }
{
    match kind_of(image, o) {
        Ok(Kind::Pool | Kind::Page) => used.next_multiple_of(64),
        _ => used,
    }
}

// How many units it takes.
fn takes(image: &[u8], o: u16) -> u64
    ensures { (result ≡ layout.takes image.now o) × (result + 64 ≤ 2 ^ 23) }
{
    match kind_of(image, o) {
        Ok(Kind::Pool) => u64::from(size_at(image, o)) * 64,
        Ok(Kind::Table) => u64::from(size_at(image, o)),
        Ok(Kind::Port) => 1,
        Ok(Kind::Page) => 64,
        Ok(Kind::Thread | Kind::Line) | Err(_) => 0,
    }
}

// How many units are used once the first `count` objects are laid out.
// A loop and no `fold` (tried), whose closure would know no bound on what is used.
#[tactic(auto, using(crate::proofs::Turns::fills_on, crate::proofs::Turns::filled_up))]
fn filled(image: &[u8], count: u16) -> u64
    ensures { (result ≡ layout.filled image.now count 0 0) × (result ≤ count * 2 ^ 23) }
{
    let mut used = 0u64;
    for o in 0..count {
        used = begins(image, o, used) + takes(image, o);
    }
    used
}

// Where object `o` begins, in units of 64 bytes.
pub fn place_of(image: &[u8], o: u16) -> u64
    ensures { result ≡ layout.place image.now o }
{
    begins(image, o, filled(image, o))
}

// How many frames the first `objects` objects need.
pub fn frames_for(image: &[u8], objects: u16) -> u64
    ensures { result ≡ layout.frames_for image.now objects }
{
    filled(image, objects).div_ceil(64)
}
