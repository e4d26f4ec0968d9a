// Files that are read up to a limit, and both files of a run.
use crate::faults::put;
use crate::images::{LENGTH, Objects, blank, sample};
use crate::outcome::{TAKEN, Told, told};
use image::{Inputs, Kinds, Part, check_events_part, check_part};
use rights::Kind;
use std::test::Fail;

// A file without an end and one without a byte; the limit; how many bytes are read, and whether there
// are more.
const READ: &[(&str, usize, usize, bool)] = &[
    ("/dev/zero", 10, 10, true),
    ("/dev/zero", 0, 0, true),
    ("/dev/null", 10, 0, false),
    ("/dev/null", 0, 0, false),
];

#[test]
fn reads(rt: HostRuntime) -> Result<(), Fail> {
    for &(path, limit, length, more) in READ {
        let part = Part::read(&rt, path, limit)?;
        assert_eq!(rt;
            (part.bytes.len(), part.more),
            (length, more),
            "{limit} bytes of {path}"
        );
    }
    assert_eq!(rt; Part::read(&rt, "/dev/null/none", 1).is_err(), true);
    Ok(())
}

// A byte that is put into the sample, and bytes that follow it; the limit; the lent frames.
const IMAGES: &[(usize, u8, &[u8], usize, u32, Told)] = &[
    // The whole file.
    (0, b'H', &[], LENGTH + 1, 4, TAKEN),
    (0, b'H', &[], LENGTH, 4, TAKEN),
    (0, b'H', &[], LENGTH, 3, Err((5, 4))),
    (0, b'H', &[], LENGTH, 0, Err((5, 4))),
    (0, b'H', &[0], LENGTH + 1, 0, Err((1, LENGTH))),
    (0, b'H', &[255, 0], LENGTH + 2, 4, Err((1, LENGTH))),
    // A slot may name nothing or an object of any kind, and have any rights.
    (27, 0, &[], LENGTH, 4, TAKEN),
    (27, 1, &[], LENGTH, 4, TAKEN),
    (27, 2, &[], LENGTH, 4, TAKEN),
    (27, 3, &[], LENGTH, 4, TAKEN),
    (27, 4, &[], LENGTH, 4, TAKEN),
    (29, 0, &[], LENGTH, 4, TAKEN),
    // A thread may have no table and a mark beside no page, and not be ready.
    (8240, 0, &[], LENGTH, 4, TAKEN),
    (8247, 1, &[], LENGTH, 4, TAKEN),
    (8434, 0, &[], LENGTH, 4, TAKEN),
    // What is fine up to the limit, or cut there.
    (0, b'H', &[0], LENGTH, 4, Err((1, LENGTH))),
    (0, b'H', &[0], LENGTH, 3, Err((1, LENGTH))),
    (0, b'H', &[0], LENGTH, 0, Err((1, LENGTH))),
    (0, b'H', &[], 100, 4, Err((1, 100))),
    (0, b'h', &[], 0, 4, Err((1, 0))),
    (27, 8, &[], 28, 4, Err((1, 28))),
    (29, 8, &[], 29, 4, Err((1, 29))),
    // Faults wholly before the limit.
    (0, b'h', &[], 1, 4, Err((2, 0))),
    (27, 8, &[], 29, 4, Err((4, 27))),
    (29, 8, &[], 30, 4, Err((3, 29))),
    (8633, 2, &[], 8634, 0, Err((3, 8633))),
    (8633, 2, &[0], LENGTH, 0, Err((3, 8633))),
    (0, b'H', &[0, 0], LENGTH + 1, 0, Err((1, LENGTH))),
];

#[test]
fn part_of_image(rt: HostRuntime) -> Result<(), Fail> {
    for &(at, byte, more, limit, frames, expected) in IMAGES {
        let mut image = sample(rt.alloc())?;
        put(&mut image, at, byte);
        image.extend_from_slice(more)?;
        let part = Part::first(limit, image);
        let answer = told(check_part(Kinds::BUILT, &part.bytes, part.more, frames));
        assert_eq!(rt;
            answer,
            expected,
            "{byte} at {at}, {more:?} more, {limit}, {frames} frames"
        );
    }
    Ok(())
}

// Rows that go on beyond what was read, and the place that is told.
const ROWS: &[(&[u8], usize)] = &[
    (&[], 0),
    (&[0, 2, 0], 3),
    (&[1, 3, 0, 7, 0, 2, 0], 7),
    // Cut in two, whatever the first bytes say.
    (&[0], 1),
    (&[0, 2], 2),
    (&[0, 7], 2),
    (&[1], 1),
    (&[1, 3], 2),
    (&[1, 3, 0], 3),
    (&[1, 2, 0], 3),
    (&[1, 255, 255], 3),
    (&[1, 3, 0, 7, 1, 3], 6),
    // Wrong before the limit.
    (&[2], 0),
    (&[255], 0),
    (&[0, 2, 0, 2], 3),
    (&[2, 0], 0),
    (&[0, 3, 0], 0),
    (&[0, 3, 0, 0], 0),
    (&[1, 2, 0, 7], 0),
    (&[1, 3, 0, 7, 0, 7, 0, 1], 4),
];

#[test]
fn part_of_events(rt: HostRuntime) -> Result<(), Fail> {
    let image = sample(rt.alloc())?;
    for &(row, place) in ROWS {
        let answer = told(check_events_part(&image, row, true));
        assert_eq!(rt; answer, Err((6, place)), "{row:?}");
    }
    Ok(())
}

// The rights of a slot, whether the image goes on, the frames, the events and whether they go on.
const FILES: &[(u8, bool, u32, &[u8], bool, Told)] = &[
    (8, true, 3, &[2], true, Err((3, 29))),
    (8, false, 4, &[], false, Err((3, 29))),
    (7, true, 3, &[2], true, Err((1, LENGTH))),
    (7, false, 3, &[2], true, Err((5, 4))),
    (7, false, 4, &[2], true, Err((6, 0))),
    (7, false, 4, &[0, 2], true, Err((6, 2))),
    (7, false, 4, &[0, 2], false, Err((6, 0))),
    (7, false, 4, &[0, 2, 0], false, TAKEN),
];

// First what is wrong with the image, in the order of its bytes, then its frames, then the events.
#[test]
fn both_files(rt: HostRuntime) -> Result<(), Fail> {
    for &(rights, goes_on, frames, row, more, expected) in FILES {
        let mut bytes = sample(rt.alloc())?;
        put(&mut bytes, 29, rights);
        let image = Part {
            bytes,
            more: goes_on,
        };
        let bytes = row.to_vec(rt.alloc())?;
        let events = Part { bytes, more };
        let inputs = Inputs { image, events };
        let answer = told(inputs.check_with(Kinds::BUILT, frames));
        assert_eq!(rt;
            answer,
            expected,
            "rights {rights}, {frames} frames, {row:?}"
        );
    }
    Ok(())
}

// An image of as many bytes as are looked at, 6 + 3 × 517 + 4 × 199 + 511 × 4,096 + 249 × 7, that
// needs 511 + 4 frames. Its first object is a thread and its fifth a line.
const LONGEST: &[Objects] = &[
    Objects(4, Kind::Thread, 0),
    Objects(1, Kind::Line, 0),
    Objects(511, Kind::Page, 0),
    Objects(1, Kind::Table, 249),
];

// What follows this image; what follows 349,524 events of three bytes, 4 bytes before the limit; and
// the lent frames.
const LONG: &[(&[u8], &[u8], u32, Told)] = &[
    (&[], &[1, 4, 0, 65], 515, TAKEN),
    (&[], &[1, 4, 0, 65], 514, Err((5, 515))),
    (&[], &[1, 4, 0, 65, 0], 515, Err((6, 1_048_576))),
    (&[], &[1, 4, 0, 65, 2], 514, Err((5, 515))),
    (&[], &[0, 0, 0, 2], 515, Err((6, 1_048_575))),
    (&[], &[0, 0, 0, 1, 4, 0, 65], 515, Err((6, 1_048_576))),
    (&[0], &[2], 514, Err((1, 2_097_152))),
];

#[test]
fn longest_files(rt: HostRuntime) -> Result<(), Fail> {
    for &(more, last, frames, expected) in LONG {
        let mut image = blank(rt.alloc(), LONGEST)?;
        image.extend_from_slice(more)?;
        let mut events = vec![in rt.alloc(); 0; 1_048_572]?;
        events.extend_from_slice(last)?;
        let image = Part::first(2_097_152, image);
        let events = Part::first(1_048_576, events);
        let inputs = Inputs { image, events };
        let answer = told(inputs.check_with(Kinds::BUILT, frames));
        assert_eq!(rt;
            answer,
            expected,
            "{more:?} more, {last:?} last, {frames} frames"
        );
    }
    Ok(())
}
