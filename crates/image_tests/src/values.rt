// Limits on values: how many objects, threads and lines, which kinds, and which sizes.
use crate::faults::put;
use crate::images::{Objects, blank};
use crate::outcome::{TAKEN, Told, told};
use image::{Census, Kinds, check, check_with};
use rights::Kind;
use std::alloc::{AllocError, Global};
use std::test::Fail;

// Threads and lines: up to 64 and 32. The place is 6 + 3 × o for the first object too many.
const MANY: &[(u16, u16, Told)] = &[
    (65, 0, Err((3, 198))),
    (65, 33, Err((3, 198))),
    (64, 33, Err((3, 294))),
    (0, 33, Err((3, 102))),
    (64, 32, TAKEN),
];

// So many threads, and so many lines after them.
fn crowd(heap: Global, threads: u16, lines: u16) -> Result<Vec<u8>, AllocError> {
    let rows = [
        Objects(threads, Kind::Thread, 0),
        Objects(lines, Kind::Line, 0),
    ];
    blank(heap, &rows)
}

#[test]
fn threads_and_lines(rt: HostRuntime) -> Result<(), Fail> {
    for &(threads, lines, expected) in MANY {
        let image = crowd(rt.alloc(), threads, lines)?;
        assert_eq!(rt;
            told(check(&image, 0)),
            expected,
            "{threads} threads, {lines} lines"
        );
    }
    let census = Census {
        objects: 96,
        threads: 64,
        lines: 32,
    };
    assert_eq!(rt; check(&crowd(rt.alloc(), 64, 32)?, 0), Ok(census));
    Ok(())
}

// What is told of one object if all kinds are let in, and if pools and ports are not.
const ONE: &[(Kind, u16, Told, Told)] = &[
    (Kind::Pool, 1, TAKEN, Err((3, 6))),
    (Kind::Pool, 4096, TAKEN, Err((3, 6))),
    (Kind::Pool, 0, Err((3, 7)), Err((3, 6))),
    (Kind::Pool, 4097, Err((3, 7)), Err((3, 6))),
    (Kind::Pool, 65535, Err((3, 7)), Err((3, 6))),
    (Kind::Table, 1, TAKEN, TAKEN),
    (Kind::Table, 4096, TAKEN, TAKEN),
    (Kind::Table, 0, Err((3, 7)), Err((3, 7))),
    (Kind::Table, 4097, Err((3, 7)), Err((3, 7))),
    (Kind::Table, 65535, Err((3, 7)), Err((3, 7))),
    (Kind::Port, 0, TAKEN, Err((3, 6))),
    (Kind::Port, 1, Err((3, 7)), Err((3, 6))),
    (Kind::Port, 65535, Err((3, 7)), Err((3, 6))),
    (Kind::Page, 0, TAKEN, TAKEN),
    (Kind::Page, 1, Err((3, 7)), Err((3, 7))),
    (Kind::Thread, 0, TAKEN, TAKEN),
    (Kind::Thread, 256, Err((3, 7)), Err((3, 7))),
    (Kind::Line, 0, TAKEN, TAKEN),
    (Kind::Line, 65535, Err((3, 7)), Err((3, 7))),
];

#[test]
fn kinds_and_sizes(rt: HostRuntime) -> Result<(), Fail> {
    for &(kind, size, all, thin) in ONE {
        let image = blank(rt.alloc(), &[Objects(1, kind, size)])?;
        assert_eq!(rt;
            told(check_with(Kinds::ALL, &image, 4096)),
            all,
            "{kind:?} {size}, all kinds"
        );
        assert_eq!(rt;
            told(check_with(Kinds::BUILT, &image, 4096)),
            thin,
            "{kind:?} {size}"
        );
        assert_eq!(rt; told(check(&image, 4096)), thin, "{kind:?} {size}");
    }
    Ok(())
}

// Places of an image of 1,000 objects that are written over, and what is told then. Objects 0 to 996
// are tables of one slot, 997 is a page, 998 a line, 999 a thread. The last header is at
// 6 + 3 × 999 = 3,003, slots are at 3,006 + 7 × o, the page is at 9,985, the thread at 14,081.
const LAST: &[(&[(usize, u8)], Told)] = &[
    (&[(3003, 6)], Err((3, 3003))),
    (&[(3004, 1)], Err((3, 3004))),
    // 1,000 is object 999, 1,001 is none
    (&[(3006, 0xe8), (3007, 3)], TAKEN),
    (&[(3006, 0xe9), (3007, 3)], Err((4, 3006))),
    (&[(9978, 0xe9), (9979, 3)], Err((4, 9978))),
    (&[(9980, 8)], Err((3, 9980))),
    // 997 is object 996, a table; 998 is the page
    (&[(14081, 0xe5), (14082, 3)], TAKEN),
    (&[(14081, 0xe6), (14082, 3)], Err((4, 14081))),
    (&[(14083, 0xe6), (14084, 3)], TAKEN),
    (&[(14083, 0xe7), (14084, 3)], Err((4, 14083))),
    // the last place of the space, the ready mark
    (&[(14272, 0xe6), (14273, 3)], TAKEN),
    (&[(14274, 2)], Err((3, 14274))),
    (&[(14275, 2)], Err((3, 14275))),
];

#[test]
fn last_objects(rt: HostRuntime) -> Result<(), Fail> {
    let rows = [
        Objects(997, Kind::Table, 1),
        Objects(1, Kind::Page, 0),
        Objects(1, Kind::Line, 0),
        Objects(1, Kind::Thread, 0),
    ];
    for &(writes, expected) in LAST {
        let mut image = blank(rt.alloc(), &rows)?;
        for &(at, byte) in writes {
            put(&mut image, at, byte);
        }
        assert_eq!(rt; told(check(&image, 17)), expected, "{writes:?}");
    }
    Ok(())
}
