// Refusal 6: rows of events. In the sample objects 2 and 6 are threads and 3 is a line.
ghost use Rattle.std.specs.Prelude.{◌≡◌, IfOk, vec_len};

use crate::images::sample;
use crate::outcome::{TAKEN, told};
use image::check_events;
use std::alloc::{AllocError, Global};
use std::test::Fail;

// Events, and whether they are right; if not, the first one is wrong.
const EVENTS: &[(&[u8], bool)] = &[
    (&[], true),
    (&[0, 2, 0], true),
    (&[0, 6, 0], true),
    (&[1, 3, 0, 255], true),
    (&[1, 3, 0, 2, 0, 2, 0, 1, 3, 0, 9, 0, 6, 0], true),
    // There are no kinds from 2 on.
    (&[2], false),
    (&[255], false),
    (&[2, 2, 0], false),
    (&[255, 3, 0, 7], false),
    // Cut short.
    (&[0], false),
    (&[0, 2], false),
    (&[1], false),
    (&[1, 3], false),
    (&[1, 3, 0], false),
    // No thread: a table, a page, a line, number 7 of seven objects, and more.
    (&[0, 0, 0], false),
    (&[0, 1, 0], false),
    (&[0, 3, 0], false),
    (&[0, 7, 0], false),
    (&[0, 2, 1], false),
    (&[0, 255, 255], false),
    // No line.
    (&[1, 0, 0, 7], false),
    (&[1, 1, 0, 7], false),
    (&[1, 2, 0, 7], false),
    (&[1, 6, 0, 7], false),
    (&[1, 7, 0, 7], false),
    (&[1, 3, 1, 7], false),
    (&[1, 255, 255, 7], false),
    // The first of two.
    (&[0, 3, 0, 2], false),
    (&[2, 0, 2, 0], false),
];

// A byte for the line and an instruction of a thread, a hundred times: 700 bytes.
fn many_events(heap: Global) -> Result<Vec<u8>, AllocError>
    ensures { IfOk result (λ v. vec_len v ≡ 700) }
{
    let mut row = Vec::new(heap);
    for _ in 0..100u8 {
        row.extend_from_slice(&[1, 3, 0, 2, 0, 2, 0])?;
    }
    Ok(row)
}

// Alone, after one event, after one of each kind, and after about two hundred.
#[test]
fn events(rt: HostRuntime) -> Result<(), Fail> {
    let image = sample(rt.alloc())?;
    let many = many_events(rt.alloc())?;
    for &(events, right) in EVENTS {
        for before in [0, 4, 7, 693, 697, 700] {
            let mut row = many[..before].to_vec(rt.alloc())?;
            row.extend_from_slice(events)?;
            let expected = if right { TAKEN } else { Err((6, before)) };
            let answer = told(check_events(&image, &row));
            assert_eq!(rt; answer, expected, "{events:?} after {before} bytes");
        }
    }
    Ok(())
}
