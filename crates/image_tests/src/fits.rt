// Refusal 5: how many frames an image needs. A frame is 64 units of 64 bytes. A pool and a page
// begin at a frame; a table, of a unit for each slot, and a port, of one unit, begin at a unit.
use crate::images::{Objects, blank, sample};
use crate::outcome::{TAKEN, told};
use image::{Kinds, check_with, frames_for, place_of};
use rights::Kind;
use std::test::Fail;

const PORT: Objects = Objects(1, Kind::Port, 0);

const PAGE: Objects = Objects(1, Kind::Page, 0);

// How many frames some objects need.
const NEEDS: &[(u32, &[Objects])] = &[
    (0, &[]),
    (
        0,
        &[Objects(64, Kind::Thread, 0), Objects(32, Kind::Line, 0)],
    ),
    (1, &[Objects(1, Kind::Table, 1)]),
    (1, &[Objects(1, Kind::Table, 64)]),
    (2, &[Objects(1, Kind::Table, 65)]),
    (64, &[Objects(1, Kind::Table, 4096)]),
    // As many objects as there may be: 15 frames of 64 units, and 40 units more.
    (16, &[Objects(1000, Kind::Table, 1)]),
    (1, &[PAGE]),
    (2, &[Objects(1, Kind::Table, 1), PAGE]),
    (2, &[PAGE, Objects(1, Kind::Table, 64)]),
    (3, &[PAGE, Objects(1, Kind::Table, 65)]),
    (2, &[PAGE, Objects(64, Kind::Table, 1)]),
    (1, &[Objects(64, Kind::Port, 0)]),
    (2, &[Objects(65, Kind::Port, 0)]),
    (1, &[Objects(1, Kind::Table, 63), PORT]),
    (2, &[Objects(1, Kind::Table, 64), PORT]),
    (2, &[PORT, Objects(1, Kind::Pool, 1)]),
    (2, &[PORT, PAGE]),
    (3, &[Objects(1, Kind::Pool, 2), PORT]),
    // 65 units, filled up to 128, and two frames.
    (4, &[Objects(1, Kind::Table, 65), Objects(1, Kind::Pool, 2)]),
    (4096, &[Objects(1, Kind::Pool, 4096)]),
    (4096, &[Objects(1, Kind::Pool, 4095), PAGE]),
    // More than are ever used.
    (4097, &[Objects(1, Kind::Pool, 4096), PORT]),
    (4097, &[PORT, Objects(1, Kind::Pool, 4096)]),
    (8192, &[Objects(2, Kind::Pool, 4096)]),
    (4_096_000, &[Objects(1000, Kind::Pool, 4096)]),
];

// Exactly enough frames, one too few, and more; of more than 4,096 only as many are used.
#[test]
fn frames(rt: HostRuntime) -> Result<(), Fail> {
    for &(needed, objects) in NEEDS {
        let image = blank(rt.alloc(), objects)?;
        for lent in [needed.saturating_sub(1), needed, 5000, u32::MAX] {
            let refused = lent < needed || needed > 4096;
            let expected = if refused {
                Err((5, needed as usize))
            } else {
                TAKEN
            };
            let answer = told(check_with(Kinds::ALL, &image, lent));
            assert_eq!(rt; answer, expected, "{objects:?} in {lent} frames");
        }
    }
    Ok(())
}

// Where objects of the sample begin, in units, and how many frames those before them fill: 2 units,
// a page at 64, a unit at 128, a page at 192. Threads and lines take none.
const PLACES: &[(u16, u64, u64)] = &[(0, 0, 0), (1, 64, 1), (4, 128, 2), (5, 192, 3)];

#[test]
fn places(rt: HostRuntime) -> Result<(), Fail> {
    let image = sample(rt.alloc())?;
    for &(o, unit, frames) in PLACES {
        assert_eq!(rt; place_of(&image, o), unit, "object {o}");
        assert_eq!(rt; frames_for(&image, o), frames, "before object {o}");
    }
    Ok(())
}
