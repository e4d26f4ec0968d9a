// Lists of calls in which several rules meet. Of each call the first word that comes back is said: 0, or
// 255 for no.
use crate::caller::CALLER;
use crate::setting::Program;
use crate::trial::Trial;
use crate::turns::Turn;
use std::test::Fail;

static LISTS: &[(&str, Trial)] = &[
    (
        "moves and drops among copies",
        // 7 is made from 3, and 8 from 7. 7 moves to 9 and is dropped there. 10 is made from 8. A revoke of 3 takes 8
        // and 10 all the same, and leaves 3.
        Trial {
            frames: 3,
            programs: &[Program {
                code: CALLER,
                data: &[
                    // copy 3 7, rights 7, badge 0
                    [1, 3, 7, 7, 0, 0, 0, 1],
                    // copy 7 8, rights 7, badge 0
                    [1, 7, 8, 7, 0, 0, 0, 1],
                    // move 7 9
                    [2, 7, 9, 0, 0, 0, 0, 1],
                    // drop 9
                    [3, 9, 0, 0, 0, 0, 0, 1],
                    // copy 8 10, rights 7, badge 0
                    [1, 8, 10, 7, 0, 0, 0, 1],
                    // revoke 3
                    [4, 3, 0, 0, 0, 0, 0, 1],
                    // copy 8 7, rights 7, badge 0
                    [1, 8, 7, 7, 0, 0, 0, 1],
                    // drop 10
                    [3, 10, 0, 0, 0, 0, 0, 1],
                    // copy 3 7, rights 7, badge 0
                    [1, 3, 7, 7, 0, 0, 0, 1],
                ],
                ready: true,
            }],
            turns: &[Turn::Ticks(5, 244)],
            said: &[0, 0, 0, 0, 0, 0, 255, 255, 0],
        },
    ),
    (
        "nested pools",
        // Pool 7 of two frames has room for two pages and no port, and pool 0 for one page more. A revoke of 0 takes
        // all of them, and all three frames are there again.
        Trial {
            frames: 3,
            programs: &[Program {
                code: CALLER,
                data: &[
                    // cut 0 pool of 2 7
                    [0, 0, 0, 2, 7, 0, 0, 1],
                    // cut 7 page 8
                    [0, 7, 3, 0, 8, 0, 0, 1],
                    // cut 7 page 9
                    [0, 7, 3, 0, 9, 0, 0, 1],
                    // cut 7 port 10
                    [0, 7, 2, 0, 10, 0, 0, 1],
                    // cut 0 page 10
                    [0, 0, 3, 0, 10, 0, 0, 1],
                    // cut 0 port 11
                    [0, 0, 2, 0, 11, 0, 0, 1],
                    // revoke 0
                    [4, 0, 0, 0, 0, 0, 0, 1],
                    // drop 8
                    [3, 8, 0, 0, 0, 0, 0, 1],
                    // drop 7
                    [3, 7, 0, 0, 0, 0, 0, 1],
                    // drop 10
                    [3, 10, 0, 0, 0, 0, 0, 1],
                    // cut 0 pool of 3 7
                    [0, 0, 0, 3, 7, 0, 0, 1],
                ],
                ready: true,
            }],
            turns: &[Turn::Ticks(5, 298)],
            said: &[0, 0, 0, 255, 0, 255, 0, 255, 255, 255, 0],
        },
    ),
    (
        "sizes",
        // A table of 192 slots takes 192 × 64 = 12,288 bytes, which is all there is.
        Trial {
            frames: 3,
            programs: &[Program {
                code: CALLER,
                data: &[
                    // cut 0 table of 0 7
                    [0, 0, 1, 0, 7, 0, 0, 1],
                    // cut 0 table of 4,097 7
                    [0, 0, 1, 4097, 7, 0, 0, 1],
                    // cut 0 port of 1 7
                    [0, 0, 2, 1, 7, 0, 0, 1],
                    // cut 0 kind 4 7
                    [0, 0, 4, 0, 7, 0, 0, 1],
                    // cut 0 table of 193 7
                    [0, 0, 1, 193, 7, 0, 0, 1],
                    // cut 0 table of 192 7
                    [0, 0, 1, 192, 7, 0, 0, 1],
                    // cut 0 port 8
                    [0, 0, 2, 0, 8, 0, 0, 1],
                ],
                ready: true,
            }],
            turns: &[Turn::Ticks(5, 190)],
            said: &[255, 255, 255, 255, 255, 0, 255],
        },
    ),
    (
        "places of a space",
        // Place 0 has the code, place 1 is free but once, places end at 63, and a port is no page.
        Trial {
            frames: 3,
            programs: &[Program {
                code: CALLER,
                data: &[
                    // map 3 5 0
                    [7, 3, 5, 0, 0, 0, 0, 1],
                    // map 3 5 1
                    [7, 3, 5, 1, 0, 0, 0, 1],
                    // map 3 5 1
                    [7, 3, 5, 1, 0, 0, 0, 1],
                    // unmap 5 1
                    [8, 5, 1, 0, 0, 0, 0, 1],
                    // map 3 5 1
                    [7, 3, 5, 1, 0, 0, 0, 1],
                    // map 3 5 64
                    [7, 3, 5, 64, 0, 0, 0, 1],
                    // unmap 5 64
                    [8, 5, 64, 0, 0, 0, 0, 1],
                    // map 3 5 63
                    [7, 3, 5, 63, 0, 0, 0, 1],
                    // map 2 5 2
                    [7, 2, 5, 2, 0, 0, 0, 1],
                ],
                ready: true,
            }],
            turns: &[Turn::Ticks(5, 244)],
            said: &[255, 0, 255, 0, 0, 255, 255, 0, 255],
        },
    ),
    (
        "a slot that is filled while its sender waits",
        // What counts is what is in slot 7 at the meeting: it goes to 8.
        Trial {
            frames: 3,
            programs: &[
                Program {
                    code: CALLER,
                    data: &[
                        // send 2, hand on 7, 9 0 0 0
                        [5, 2, 7, 9, 0, 0, 0, 1],
                    ],
                    ready: true,
                },
                Program {
                    code: CALLER,
                    data: &[
                        // copy 3 7, rights 7, badge 0
                        [1, 3, 7, 7, 0, 0, 0, 1],
                        // receive 2 8
                        [6, 2, 8, 0, 0, 0, 0, 1],
                        // drop 7
                        [3, 7, 0, 0, 0, 0, 0, 1],
                        // drop 8
                        [3, 8, 0, 0, 0, 0, 0, 1],
                    ],
                    ready: true,
                },
            ],
            turns: &[Turn::Ticks(5, 10), Turn::Ticks(6, 109), Turn::Ticks(5, 18)],
            said: &[0, 0, 255, 0, 0],
        },
    ),
    (
        "a slot that is revoked while its sender waits",
        // The words go over, and nothing is handed on.
        Trial {
            frames: 3,
            programs: &[
                Program {
                    code: CALLER,
                    data: &[
                        // copy 3 7, rights 7, badge 0
                        [1, 3, 7, 7, 0, 0, 0, 1],
                        // send 2, hand on 7, 9 0 0 0
                        [5, 2, 7, 9, 0, 0, 0, 1],
                    ],
                    ready: true,
                },
                Program {
                    code: CALLER,
                    data: &[
                        // revoke 3
                        [4, 3, 0, 0, 0, 0, 0, 1],
                        // receive 2 8
                        [6, 2, 8, 0, 0, 0, 0, 1],
                        // drop 8
                        [3, 8, 0, 0, 0, 0, 0, 1],
                    ],
                    ready: true,
                },
            ],
            turns: &[Turn::Ticks(5, 37), Turn::Ticks(6, 82), Turn::Ticks(5, 18)],
            said: &[0, 0, 0, 255, 0],
        },
    ),
    (
        "a full slot for what is handed on",
        // Slot 1 is full, so the page stays in 3.
        Trial {
            frames: 3,
            programs: &[
                Program {
                    code: CALLER,
                    data: &[
                        // send 2, hand on 3, 9 0 0 0
                        [5, 2, 3, 9, 0, 0, 0, 1],
                    ],
                    ready: true,
                },
                Program {
                    code: CALLER,
                    data: &[
                        // receive 2 1
                        [6, 2, 1, 0, 0, 0, 0, 1],
                        // drop 3
                        [3, 3, 0, 0, 0, 0, 0, 1],
                        // drop 3
                        [3, 3, 0, 0, 0, 0, 0, 1],
                    ],
                    ready: true,
                },
            ],
            turns: &[Turn::Ticks(5, 10), Turn::Ticks(6, 82), Turn::Ticks(5, 18)],
            said: &[0, 0, 255, 0],
        },
    ),
];

#[test]
fn lists(rt: HostRuntime) -> Result<(), Fail> {
    for (name, trial) in LISTS {
        assert_eq!(rt; &trial.run(rt.alloc())?.said[..], trial.said, "{name}");
    }
    Ok(())
}
