// What is not taken, through a whole run. The image is that of two programs without code: its length is
// 6 + 9 × 3 for the headers, 12 × 7 for the slots, 3 × 4,096 for the pages and 2 × 199 for the threads.
use crate::setting::{Program, image};
use replay::{Replayed, StartError, run};
use std::test::Fail;

const LENGTH: usize = 12_803;

const EMPTY: Program = Program {
    code: &[],
    data: &[],
    ready: true,
};

// A byte that is changed, how many frames are lent, events; and the number and the place that are told.
struct Case {
    at: usize,
    byte: u8,
    frames: u32,
    events: &'static [u8],
    told: (u8, usize),
}

// Kinds are at 6, 9 and so on, slots from 33 on, seven bytes each. A pool of three frames, a port, a page
// in the fifth frame, a table of 768 bytes in the sixth, and two pages take eight frames.
static CASES: &[Case] = &[
    // "XOLD"
    Case {
        at: 0,
        byte: 0x58,
        frames: 8,
        events: &[],
        told: (2, 0),
    },
    // object 5, a thread, of kind 6
    Case {
        at: 21,
        byte: 6,
        frames: 8,
        events: &[],
        told: (3, 21),
    },
    // slot 0 leads to the tenth of nine objects
    Case {
        at: 33,
        byte: 10,
        frames: 8,
        events: &[],
        told: (4, 33),
    },
    // a frame too few; byte 32, of a size, stays 0
    Case {
        at: 32,
        byte: 0,
        frames: 7,
        events: &[],
        told: (5, 8),
    },
    // the second event is of a table
    Case {
        at: 32,
        byte: 0,
        frames: 8,
        events: &[0, 5, 0, 0, 4, 0],
        told: (6, 3),
    },
    // the image before the events
    Case {
        at: 33,
        byte: 10,
        frames: 7,
        events: &[2],
        told: (4, 33),
    },
];

// What is told, if it is not taken.
fn told(res: Result<Replayed, StartError>) -> Option<(u8, usize)> {
    match res {
        Err(StartError::Refused(refusal)) => Some((refusal.number(), refusal.place())),
        _ => None,
    }
}

#[test]
fn refuses(rt: HostRuntime) -> Result<(), Fail> {
    let heap = rt.alloc();
    let mut bytes = image(heap, 3, &[EMPTY, EMPTY])?;
    assert_eq!(rt; told(run(heap, &bytes, &[], 8)), None);
    for case in CASES {
        let mut changed = bytes.clone()?;
        if let Some(byte) = changed.get_mut(case.at) {
            *byte = case.byte;
        }
        let told = told(run(heap, &changed, case.events, case.frames));
        assert_eq!(rt; told, Some(case.told), "byte {} at {}", case.byte, case.at);
    }
    // A byte too many, and then two too few.
    bytes.push(0)?;
    assert_eq!(rt; told(run(heap, &bytes, &[], 8)), Some((1, LENGTH)));
    bytes.truncate(LENGTH - 1);
    assert_eq!(rt; told(run(heap, &bytes, &[], 8)), Some((1, LENGTH - 1)));
    Ok(())
}
