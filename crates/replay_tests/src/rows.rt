// The rows of calls A to H, made by programs.
use crate::caller::CALLER;
use crate::setting::Program;
use crate::trial::Trial;
use crate::turns::Turn;
use model::{Capability, Object, World};
use std::test::Fail;

// A number that names no slot.
const NO_SLOT: u32 = 0xffff_ffff;

// What a slot holds: an object, rights and a badge.
type Held = (usize, u8, u32);

// A row: the calls of threads 5 and 6 and the turns in which they are made; how much of pool 0 is used
// then, and what slots hold. Of each call the first word that comes back is said, 0, or 255 for no; of
// what is received all six words.
#[derive(Clone, Copy, Debug)]
struct Row {
    name: char,
    trial: Trial,
    used: u64,
    slots: &'static [(usize, Option<Held>)],
}

static ROWS: &[Row] = &[
    // A port takes 64 bytes, and the first page begins at 4,096: then the pool of 12,288 bytes is full.
    Row {
        name: 'A',
        trial: Trial {
            frames: 3,
            programs: &[
                Program {
                    code: CALLER,
                    data: &[
                        // cut 0 port 7
                        [0, 0, 2, 0, 7, 0, 0, 1],
                        // cut 0 page 8
                        [0, 0, 3, 0, 8, 0, 0, 1],
                        // cut 0 page 9
                        [0, 0, 3, 0, 9, 0, 0, 1],
                        // cut 0 port 10
                        [0, 0, 2, 0, 10, 0, 0, 1],
                    ],
                    ready: true,
                },
                Program {
                    code: CALLER,
                    data: &[],
                    ready: true,
                },
            ],
            turns: &[Turn::Ticks(5, 109)],
            said: &[0, 0, 0, 255],
        },
        used: 12_288,
        slots: &[
            (7, Some((9, 7, 0))),
            (8, Some((10, 7, 0))),
            (9, Some((11, 7, 0))),
            (10, None),
        ],
    },
    // What was cut goes with a revoke of the pool. Its numbers are not used again: the last page is object 12.
    Row {
        name: 'B',
        trial: Trial {
            frames: 3,
            programs: &[
                Program {
                    code: CALLER,
                    data: &[
                        // cut 0 port 7
                        [0, 0, 2, 0, 7, 0, 0, 1],
                        // cut 0 page 8
                        [0, 0, 3, 0, 8, 0, 0, 1],
                        // cut 0 page 9
                        [0, 0, 3, 0, 9, 0, 0, 1],
                        // revoke 0
                        [4, 0, 0, 0, 0, 0, 0, 1],
                        // cut 0 page 10
                        [0, 0, 3, 0, 10, 0, 0, 1],
                    ],
                    ready: true,
                },
                Program {
                    code: CALLER,
                    data: &[],
                    ready: true,
                },
            ],
            turns: &[Turn::Ticks(5, 136)],
            said: &[0, 0, 0, 0, 0],
        },
        used: 4096,
        slots: &[(7, None), (8, None), (9, None), (10, Some((12, 7, 0)))],
    },
    // Thread 6 waits, and gets 0, the badge of the copy and the four words.
    Row {
        name: 'C',
        trial: Trial {
            frames: 3,
            programs: &[
                Program {
                    code: CALLER,
                    data: &[
                        // copy 2 7, rights 2, badge 5
                        [1, 2, 7, 2, 5, 0, 0, 1],
                        // send 7, hand on nothing, 1 2 3 4
                        [5, 7, NO_SLOT, 1, 2, 3, 4, 1],
                    ],
                    ready: true,
                },
                Program {
                    code: CALLER,
                    data: &[
                        // receive 2 8
                        [6, 2, 8, 0, 0, 0, 0, 6],
                    ],
                    ready: true,
                },
            ],
            turns: &[
                Turn::Ticks(5, 28),
                Turn::Ticks(6, 10),
                Turn::Ticks(5, 27),
                Turn::Ticks(6, 58),
            ],
            said: &[0, 0, 0, 5, 1, 2, 3, 4],
        },
        used: 0,
        slots: &[(7, Some((2, 2, 5))), (8, None)],
    },
    // A copy of a copy goes with a revoke of the copy, which itself stays.
    Row {
        name: 'D',
        trial: Trial {
            frames: 3,
            programs: &[
                Program {
                    code: CALLER,
                    data: &[
                        // copy 3 7, rights 7, badge 0
                        [1, 3, 7, 7, 0, 0, 0, 1],
                        // copy 7 8, rights 7, badge 0
                        [1, 7, 8, 7, 0, 0, 0, 1],
                        // revoke 7
                        [4, 7, 0, 0, 0, 0, 0, 1],
                        // copy 8 9, rights 7, badge 0
                        [1, 8, 9, 7, 0, 0, 0, 1],
                    ],
                    ready: true,
                },
                Program {
                    code: CALLER,
                    data: &[],
                    ready: true,
                },
            ],
            turns: &[Turn::Ticks(5, 109)],
            said: &[0, 0, 0, 255],
        },
        used: 0,
        slots: &[
            (3, Some((3, 7, 0))),
            (7, Some((3, 7, 0))),
            (8, None),
            (9, None),
        ],
    },
    // The page goes from slot 3 to slot 8, by a port that may hand on.
    Row {
        name: 'E',
        trial: Trial {
            frames: 3,
            programs: &[
                Program {
                    code: CALLER,
                    data: &[
                        // send 2, hand on 3, 9 0 0 0
                        [5, 2, 3, 9, 0, 0, 0, 1],
                    ],
                    ready: true,
                },
                Program {
                    code: CALLER,
                    data: &[
                        // receive 2 8
                        [6, 2, 8, 0, 0, 0, 0, 6],
                    ],
                    ready: true,
                },
            ],
            turns: &[Turn::Ticks(6, 10), Turn::Ticks(5, 28), Turn::Ticks(6, 58)],
            said: &[0, 0, 0, 9, 0, 0, 0],
        },
        used: 0,
        slots: &[(3, None), (8, Some((3, 7, 0)))],
    },
    // By a copy that may only write the words go over, and nothing is handed on.
    Row {
        name: 'F',
        trial: Trial {
            frames: 3,
            programs: &[
                Program {
                    code: CALLER,
                    data: &[
                        // copy 2 7, rights 2, badge 0
                        [1, 2, 7, 2, 0, 0, 0, 1],
                        // send 7, hand on 3, 9 0 0 0
                        [5, 7, 3, 9, 0, 0, 0, 1],
                    ],
                    ready: true,
                },
                Program {
                    code: CALLER,
                    data: &[
                        // receive 2 8
                        [6, 2, 8, 0, 0, 0, 0, 6],
                    ],
                    ready: true,
                },
            ],
            turns: &[Turn::Ticks(6, 10), Turn::Ticks(5, 55), Turn::Ticks(6, 58)],
            said: &[0, 0, 0, 0, 9, 0, 0, 0],
        },
        used: 0,
        slots: &[(3, Some((3, 7, 0))), (8, None)],
    },
    // Who waits at a port that goes with its pool gets no.
    Row {
        name: 'G',
        trial: Trial {
            frames: 3,
            programs: &[
                Program {
                    code: CALLER,
                    data: &[
                        // cut 0 port 7
                        [0, 0, 2, 0, 7, 0, 0, 1],
                        // revoke 0
                        [4, 0, 0, 0, 0, 0, 0, 1],
                    ],
                    ready: true,
                },
                Program {
                    code: CALLER,
                    data: &[
                        // receive 7 8
                        [6, 7, 8, 0, 0, 0, 0, 1],
                    ],
                    ready: true,
                },
            ],
            turns: &[
                Turn::Ticks(5, 28),
                Turn::Ticks(6, 10),
                Turn::Ticks(5, 27),
                Turn::Ticks(6, 18),
            ],
            said: &[0, 0, 255],
        },
        used: 0,
        slots: &[(7, None), (8, None)],
    },
    // A badge that is there stays, and a right that is not there does not come.
    Row {
        name: 'H',
        trial: Trial {
            frames: 3,
            programs: &[
                Program {
                    code: CALLER,
                    data: &[
                        // copy 2 7, rights 6, badge 5
                        [1, 2, 7, 6, 5, 0, 0, 1],
                        // copy 7 8, rights 7, badge 6
                        [1, 7, 8, 7, 6, 0, 0, 1],
                    ],
                    ready: true,
                },
                Program {
                    code: CALLER,
                    data: &[],
                    ready: true,
                },
            ],
            turns: &[Turn::Ticks(5, 55)],
            said: &[0, 0],
        },
        used: 0,
        slots: &[(7, Some((2, 6, 5))), (8, Some((2, 6, 5)))],
    },
];

// What slot `s` of table 4 holds.
fn held(world: &World, s: usize) -> Option<Held> {
    let Object::Table { slots, .. } = world.get(4)? else {
        return None;
    };
    let c = slots.get(s).copied()??;
    Some((c.object, c.rights.into(), c.badge))
}

// How much of pool 0 is used.
fn used(world: &World) -> Option<u64> {
    match world.get(0)? {
        Object::Pool { used, .. } => Some(*used),
        _ => None,
    }
}

#[test]
fn rows(rt: HostRuntime) -> Result<(), Fail> {
    for row in ROWS {
        let outcome = row.trial.run(rt.alloc())?;
        let name = row.name;
        assert_eq!(rt; &outcome.said[..], row.trial.said, "row {name}");
        assert_eq!(rt; used(&outcome.world), Some(row.used), "row {name}");
        for &(s, expected) in row.slots {
            assert_eq!(rt; held(&outcome.world, s), expected, "row {name}, slot {s}");
        }
    }
    Ok(())
}
