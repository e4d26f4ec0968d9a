// The beginning of an image: "HOLD", the number of objects, and their kinds and sizes.
ghost use Rattle.std.specs.Prelude.{◌≡◌, IfOk};
ghost use Rattle.rights.specs.Vocabulary.{kind_or};
ghost use Rattle.image.specs.Fields as fields;
ghost use Rattle.image.specs.Fields.{◌then◌};
ghost use Rattle.image.specs.Format as format;

use crate::census::{Census, Kinds};
use crate::fields::{one, past, read_two, two};
use rights::{Kind, Refusal, UnknownKind};

// An image's bytes, and how many objects it says it has.
#[derive(Clone, Copy)]
pub struct Image<'a> {
    pub bytes: &'a [u8],
    pub objects: u16,
}

// Where the header of object `o` is.
pub fn head_at(o: u16) -> usize
    ensures { result ≡ format.head_at o }
{
    6 + 3 * usize::from(o)
}

// What is asked of an object by its number takes the bytes, not an `Image`: it is asked also where the
// image says that it has fewer objects.

// Whether object `o` is of a kind, by its header.
pub fn is_a(image: &[u8], o: u16, kind: Kind) -> bool
    ensures { result ≡ format.is_a image.now o kind }
{
    one(image, head_at(o)) == u8::from(kind)
}

// The kind of object `o`, by its header.
pub fn kind_of(image: &[u8], o: u16) -> Result<Kind, UnknownKind>
    ensures { result ≡ kind_or (fields.one image.now (format.head_at o)) }
{
    Kind::try_from(one(image, head_at(o)))
}

// The size of object `o`, by its header.
pub fn size_at(image: &[u8], o: u16) -> u16
    ensures { result ≡ format.size_at image.now o }
{
    two(image, head_at(o) + 1)
}

// "HOLD", as far as there are bytes.
fn magic(image: &[u8]) -> Result<usize, Refusal>
    ensures { result ≡ format.magic image.now }
{
    let first = &image[..image.len().min(4)];
    if !b"HOLD".starts_with(first) {
        return Err(Refusal::Magic);
    }
    past(image, 0, 4)
}

// The number of objects.
fn count(image: &[u8]) -> Result<u16, Refusal>
    ensures { result ≡ format.count image.now }
{
    let (objects, _) = read_two(image, 4)?;
    if objects > 1000 {
        return Err(Refusal::Value(4));
    }
    Ok(objects)
}

// Whether a kind may have a size.
// `1..=4096` stands in `rights` and `model` too: the format gives the numbers, and a constant would
// say no more than they do.
fn right_size(kind: Kind, size: u16) -> bool
    ensures { result ≡ format.right_size kind size }
{
    match kind {
        Kind::Pool | Kind::Table => (1..=4096).contains(&size),
        Kind::Port | Kind::Page | Kind::Thread | Kind::Line => size == 0,
    }
}

// The kind of object `o`, if it is let in.
fn kind_at(kinds: Kinds, image: &[u8], o: u16) -> Option<Kind>
    ensures { result ≡ format.kind_at kinds image.now (format.head_at o) }
{
    kind_of(image, o).ok().filter(|kind| kinds.lets_in(*kind))
}

impl<'a> Image<'a> {
    // What an image of some bytes begins with: "HOLD" and the number of objects.
    pub fn open(bytes: &'a [u8]) -> Result<Image<'a>, Refusal>
        ensures same { IfOk result (λ image. image.bytes.now ≡ bytes.now) }
        ensures number { (result then λ image. Ok image.objects) ≡ format.opened bytes.now }
    {
        let _ = magic(bytes)?;
        let objects = count(bytes)?;
        Ok(Image { bytes, objects })
    }

    // Whether object `o` is there, and of a kind.
    pub fn has(&self, o: u16, kind: Kind) -> bool
        ensures { result ≡ format.has self.now.bytes.now self.now.objects o kind }
    {
        o < self.objects && is_a(self.bytes, o, kind)
    }

    // Whether `number` is 0, for none, or an object of a kind, plus 1.
    pub fn names(&self, number: u16, kind: Kind) -> bool
        ensures { result ≡ format.names self.now.bytes.now self.now.objects number kind }
    {
        match number.checked_sub(1) {
            None => true,
            Some(o) => self.has(o, kind),
        }
    }

    // A header: kind, size.
    fn header(&self, kinds: Kinds, o: u16, census: Census) -> Result<Census, Refusal>
        ensures { result ≡ format.header kinds self.now.bytes.now o census }
    {
        let at = head_at(o);
        let size_at = past(self.bytes, at, 1)?;
        let kind = kind_at(kinds, self.bytes, o).ok_or(Refusal::Value(at))?;
        let more = census.with(kind).ok_or(Refusal::Value(at))?;
        let (size, _) = read_two(self.bytes, size_at)?;
        if !right_size(kind, size) {
            return Err(Refusal::Value(size_at));
        }
        Ok(more)
    }

    // All headers.
    pub fn headers(&self, kinds: Kinds) -> Result<Census, Refusal>
        ensures { result ≡ format.headers kinds self.now.bytes.now self.now.objects }
    {
        let empty = Census {
            objects: self.objects,
            threads: 0,
            lines: 0,
        };
        (0..self.objects).try_fold(empty, |census, o| self.header(kinds, o, census))
    }
}
