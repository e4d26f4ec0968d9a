// Refusals 2, 3 and 4: faults that are planted in the sample, alone and in pairs.
ghost use Rattle.std.specs.Prelude.{◌≡◌, ◌==◌, ◌≤◌, if◌then◌else◌, slice_set, vec_len};

use crate::images::sample;
use crate::outcome::{Told, told};
use image::check;
use std::test::Fail;

#[derive(Clone, Copy, Debug)]
enum Field {
    One(u8),
    Two(u16),
}

use Field::{One, Two};

// A field with a wrong value: its first byte, the value, and the number it is refused with.
#[derive(Clone, Copy, Debug)]
struct Fault(usize, Field, u8);

const FAULTS: &[Fault] = &[
    // "HOLD".
    Fault(0, One(b'h'), 2),
    Fault(1, One(0), 2),
    Fault(2, One(255), 2),
    Fault(3, One(b'X'), 2),
    // The number of objects.
    Fault(4, Two(1001), 3),
    Fault(4, Two(65535), 3),
    // Kinds: there are none from 6 on, and pools and ports are not let in.
    Fault(6, One(6), 3),
    Fault(6, One(255), 3),
    Fault(6, One(0), 3),
    Fault(6, One(2), 3),
    Fault(24, One(6), 3),
    Fault(24, One(255), 3),
    Fault(24, One(0), 3),
    Fault(24, One(2), 3),
    // Sizes of the tables, the pages, the threads and the line.
    Fault(7, Two(0), 3),
    Fault(7, Two(4097), 3),
    Fault(7, Two(65535), 3),
    Fault(19, Two(0), 3),
    Fault(19, Two(4097), 3),
    Fault(19, Two(65535), 3),
    Fault(10, Two(1), 3),
    Fault(10, Two(65535), 3),
    Fault(13, Two(1), 3),
    Fault(13, Two(65535), 3),
    Fault(16, Two(1), 3),
    Fault(16, Two(65535), 3),
    Fault(22, Two(256), 3),
    Fault(25, Two(1), 3),
    Fault(25, Two(65535), 3),
    // Slots that name an eighth object, and more.
    Fault(27, Two(8), 4),
    Fault(27, Two(65535), 4),
    Fault(34, Two(8), 4),
    Fault(34, Two(256), 4),
    Fault(41, Two(8), 4),
    Fault(41, Two(65535), 4),
    // Rights, two bytes after the name; the slot at 34 is empty.
    Fault(29, One(8), 3),
    Fault(29, One(255), 3),
    Fault(36, One(8), 3),
    Fault(36, One(255), 3),
    Fault(43, One(8), 3),
    Fault(43, One(255), 3),
    // The tables of the threads: a page, a thread, a line, an eighth object.
    Fault(8240, Two(2), 4),
    Fault(8240, Two(3), 4),
    Fault(8240, Two(4), 4),
    Fault(8240, Two(8), 4),
    Fault(8439, Two(6), 4),
    Fault(8439, Two(7), 4),
    Fault(8439, Two(8), 4),
    Fault(8439, Two(65535), 4),
    // The first and the last page of each space, 189 bytes on: a table, a thread, a line, an eighth
    // object.
    Fault(8242, Two(1), 4),
    Fault(8242, Two(3), 4),
    Fault(8242, Two(4), 4),
    Fault(8242, Two(8), 4),
    Fault(8431, Two(5), 4),
    Fault(8431, Two(7), 4),
    Fault(8431, Two(65535), 4),
    Fault(8441, Two(1), 4),
    Fault(8441, Two(8), 4),
    Fault(8630, Two(1), 4),
    Fault(8630, Two(3), 4),
    Fault(8630, Two(4), 4),
    Fault(8630, Two(8), 4),
    // Their marks, two bytes after the name; the one at 8,247 stands beside no page.
    Fault(8244, One(2), 3),
    Fault(8244, One(255), 3),
    Fault(8247, One(2), 3),
    Fault(8433, One(2), 3),
    Fault(8433, One(255), 3),
    Fault(8443, One(2), 3),
    Fault(8632, One(2), 3),
    Fault(8632, One(255), 3),
    // The marks for ready.
    Fault(8434, One(2), 3),
    Fault(8434, One(255), 3),
    Fault(8633, One(2), 3),
    Fault(8633, One(255), 3),
];

impl Fault {
    // What is told of it: its first byte, or 0 for "HOLD".
    fn told(self) -> Told
        ensures { result ≡ Err (self.2, (if self.2 == 2 then 0 else self.0)) }
    {
        let Fault(at, _, number) = self;
        Err((number, if number == 2 { 0 } else { at }))
    }

    // The place after it.
    fn end(self) -> usize
        ensures { self.0 ≤ result }
    {
        let width = match self.1 {
            One(_) => 1,
            Two(_) => 2,
        };
        self.0.saturating_add(width)
    }

    fn plant(self, image: &mut Vec<u8>)
        ensures { vec_len image.new ≡ vec_len image.old }
    {
        let Fault(at, value, _) = self;
        match value {
            One(byte) => put(image, at, byte),
            Two(value) => {
                let [low, high] = value.to_le_bytes();
                put(image, at, low);
                put(image, at.saturating_add(1), high);
            }
        }
    }
}

// Another byte at a place of an image, if it has that place. A `Vec`, since after the get_mut of a
// slice no element is known.
pub fn put(image: &mut Vec<u8>, at: usize, byte: u8)
    ensures { image.new.items ≡ slice_set image.old.items at byte }
{
    if let Some(place) = image.get_mut(at) {
        *place = byte;
    }
}

// One fault, whole and cut short by one byte, before more bytes, and with no frames.
#[test]
fn one_fault(rt: HostRuntime) -> Result<(), Fail> {
    let good = sample(rt.alloc())?;
    for fault in FAULTS {
        let mut image = good.clone()?;
        fault.plant(&mut image);
        image.push(0)?;
        for frames in [4, 0] {
            assert_eq!(rt;
                told(check(&image, frames)),
                fault.told(),
                "{fault:?}, {frames} frames"
            );
        }
        image.truncate(fault.end());
        assert_eq!(rt;
            told(check(&image, 4)),
            fault.told(),
            "{fault:?} at the end"
        );
        let length = fault.end().saturating_sub(1);
        image.truncate(length);
        assert_eq!(rt;
            told(check(&image, 4)),
            Err((1, length)),
            "{fault:?} cut short"
        );
    }
    Ok(())
}

// Two faults in different fields: the one that comes first in the order of bytes.
#[test]
fn two_faults(rt: HostRuntime) -> Result<(), Fail> {
    let good = sample(rt.alloc())?;
    for first in FAULTS {
        for second in FAULTS.iter().filter(|second| first.0 < second.0) {
            let mut image = good.clone()?;
            first.plant(&mut image);
            second.plant(&mut image);
            assert_eq!(rt;
                told(check(&image, 4)),
                first.told(),
                "{first:?} and {second:?}"
            );
        }
    }
    Ok(())
}
