// Fields: what stands at a place of some bytes, low byte first.
// Bytes and a place stand beside each other, as a reader of the definitions goes from a place to the next.
ghost use Rattle.std.specs.Prelude.{◌≡◌};
ghost use Rattle.image.specs.Fields as fields;

use rights::Refusal;

// The byte at `at`, 0 past the end.
pub fn one(bytes: &[u8], at: usize) -> u8
    ensures { result ≡ fields.one bytes.now at }
{
    bytes.get(at).copied().unwrap_or(0)
}

// The two bytes at `at`.
pub fn two(bytes: &[u8], at: usize) -> u16
    ensures { result ≡ fields.two bytes.now at }
{
    let Some(low) = bytes.get(at) else {
        return 0;
    };
    u16::from_le_bytes([*low, one(bytes, at + 1)])
}

// The place after the `n` bytes at `at`, if they are there.
pub fn end_of(bytes: &[u8], at: usize, n: usize) -> Option<usize>
    ensures { result ≡ fields.end_of bytes.now at n }
{
    if n > bytes.len() || at > bytes.len() - n {
        return None;
    }
    Some(at + n)
}

// The same, where they have to be there.
pub fn past(bytes: &[u8], at: usize, n: usize) -> Result<usize, Refusal>
    ensures { result ≡ fields.past bytes.now at n }
{
    end_of(bytes, at, n).ok_or(Refusal::Length(bytes.len()))
}

// The byte at `at`, which has to be there, and the place after it.
// It and `read_two` are no generic, which would take a width and how to read it, to be passed in
// step, for two lines each.
pub fn read_one(bytes: &[u8], at: usize) -> Result<(u8, usize), Refusal>
    ensures { result ≡ fields.read_one bytes.now at }
{
    let next = past(bytes, at, 1)?;
    Ok((one(bytes, at), next))
}

// The two bytes at `at`, which have to be there, and the place after them.
pub fn read_two(bytes: &[u8], at: usize) -> Result<(u16, usize), Refusal>
    ensures { result ≡ fields.read_two bytes.now at }
{
    let next = past(bytes, at, 2)?;
    Ok((two(bytes, at), next))
}
