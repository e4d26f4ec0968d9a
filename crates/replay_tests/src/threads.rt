// Programs that start others, and programs that stop.
use crate::setting::Program;
use crate::trial::{Trial, state};
use crate::turns::Turn;
use assembler::Line::{Addi, Beq, Ebreak, Ecall, Jal, Jalr, Lb, Li, Lui, Lw, Sw, Word};
use assembler::{A0, A1, A2, A3, A7, Line, S0, T0, T1, ZERO};
use model::State;
use std::test::Fail;

const START: &[Line] = &[
    // go 6 0, and say what came back
    Li(A7, 10),
    Li(A0, 6),
    Li(A1, 0),
    Ecall,
    Addi(A1, A0, 0),
    Li(A7, 11),
    Li(A0, 1),
    Ecall,
    // bind 6 4, and say what came back
    Li(A7, 9),
    Li(A0, 6),
    Li(A1, 4),
    Ecall,
    Addi(A1, A0, 0),
    Li(A7, 11),
    Li(A0, 1),
    Ecall,
    // go 6 0, and say what came back
    Li(A7, 10),
    Li(A0, 6),
    Li(A1, 0),
    Ecall,
    Addi(A1, A0, 0),
    Li(A7, 11),
    Li(A0, 1),
    Ecall,
    // bind 6 4, and say what came back
    Li(A7, 9),
    Li(A0, 6),
    Li(A1, 4),
    Ecall,
    Addi(A1, A0, 0),
    Li(A7, 11),
    Li(A0, 1),
    Ecall,
    Ebreak,
];

const SAY_B: &[Line] = &[Li(A7, 11), Li(A0, 1), Li(A1, 0x62), Ecall, Ebreak];

// Thread 6 is stopped and has no table. Its times are nothing; once it goes, it can't say anything, and
// stops. Bound and gone it says b; while it is ready it can't be bound.
const STARTS: Trial = Trial {
    frames: 1,
    programs: &[
        Program {
            code: START,
            data: &[],
            ready: true,
        },
        Program {
            code: SAY_B,
            data: &[],
            ready: false,
        },
    ],
    turns: &[
        Turn::Ticks(6, 5),
        Turn::Ticks(5, 8),
        Turn::Ticks(6, 5),
        Turn::Ticks(5, 24),
        Turn::Ticks(6, 5),
    ],
    said: &[0, 0, 0, 255, 0x62],
};

const RESTART: &[Line] = &[
    // copy 3 7, rights to read
    Li(A7, 1),
    Li(A0, 3),
    Li(A1, 7),
    Li(A2, 1),
    Li(A3, 0),
    Ecall,
    // map 7 6 1
    Li(A7, 7),
    Li(A0, 7),
    Li(A1, 6),
    Li(A2, 1),
    Ecall,
    // go 6, 32 bytes further on, and say what came back; again and again
    Addi(S0, S0, 32),
    Li(A7, 10),
    Li(A0, 6),
    Addi(A1, S0, 0),
    Ecall,
    Addi(A1, A0, 0),
    Li(A7, 11),
    Li(A0, 1),
    Ecall,
    Jal(ZERO, -9),
];

// Six pieces of eight lines: each says s0 as a digit, which is 0 in a new thread, makes it 5, and does
// something wrong. If that went on, 5 would be said.
const FAIL: &[Line] = &[
    Addi(A1, S0, 0x30),
    Li(A7, 11),
    Li(A0, 1),
    Ecall,
    Li(S0, 5),
    Lui(T1, 0x1000),
    // no instruction
    Word(0),
    Jal(ZERO, -7),
    // At 32.
    Addi(A1, S0, 0x30),
    Li(A7, 11),
    Li(A0, 1),
    Ecall,
    Li(S0, 5),
    Lui(T1, 0x1000),
    // a word from 0x1002
    Lw(T0, 2, T1),
    Jal(ZERO, -7),
    // At 64.
    Addi(A1, S0, 0x30),
    Li(A7, 11),
    Li(A0, 1),
    Ecall,
    Li(S0, 5),
    Lui(T1, 0x1000),
    // a page that may only be read
    Sw(ZERO, 0, T1),
    Jal(ZERO, -7),
    // At 96.
    Addi(A1, S0, 0x30),
    Li(A7, 11),
    Li(A0, 1),
    Ecall,
    Li(S0, 5),
    Lui(T1, 0x2000),
    // no page
    Lb(T0, 0, T1),
    Jal(ZERO, -7),
    // At 128.
    Addi(A1, S0, 0x30),
    Li(A7, 11),
    Li(A0, 1),
    Ecall,
    Li(S0, 5),
    Lui(T1, 0x1000),
    Ebreak,
    Jal(ZERO, -7),
    // At 160.
    Addi(A1, S0, 0x30),
    Li(A7, 11),
    Li(A0, 1),
    Ecall,
    Li(S0, 5),
    Lui(T1, 0),
    // a jump to 162
    Jalr(ZERO, T1, 162),
    Jal(ZERO, -7),
];

// A thread that has a table from the start: each piece says 0 and stops it, so that it can go again, which
// comes back with 0. Then it goes once more, at 192, and the next go gets no, since it is ready.
static RESTARTS: Trial = Trial {
    frames: 1,
    programs: &[
        Program {
            code: RESTART,
            data: &[],
            ready: true,
        },
        Program {
            code: FAIL,
            data: &[],
            ready: true,
        },
    ],
    turns: &[
        Turn::Ticks(5, 11),
        Turn::Ticks(6, 20),
        Turn::Ticks(5, 9),
        Turn::Ticks(6, 20),
        Turn::Ticks(5, 10),
        Turn::Ticks(6, 20),
        Turn::Ticks(5, 10),
        Turn::Ticks(6, 20),
        Turn::Ticks(5, 10),
        Turn::Ticks(6, 20),
        Turn::Ticks(5, 10),
        Turn::Ticks(6, 20),
        Turn::Ticks(5, 20),
    ],
    said: &[0x30, 0, 0x30, 0, 0x30, 0, 0x30, 0, 0x30, 0, 0x30, 0, 255],
};

#[test]
fn restarts_what_failed(rt: HostRuntime) -> Result<(), Fail> {
    let outcome = RESTARTS.run(rt.alloc())?;
    assert_eq!(rt; &outcome.said[..], RESTARTS.said);
    assert_eq!(rt; state(&outcome.world, 6), Some((State::Ready, 192)));
    Ok(())
}

const RETIRE: &[Line] = &[
    // copy 1 7, rights to write
    Li(A7, 1),
    Li(A0, 1),
    Li(A1, 7),
    Li(A2, 2),
    Li(A3, 0),
    Ecall,
    // revoke 1
    Li(A7, 4),
    Li(A0, 1),
    Ecall,
    Ebreak,
];

const SPEAK: &[Line] = &[
    // say 7 a, again and again
    Li(A7, 11),
    Li(A0, 7),
    Li(A1, 0x61),
    Ecall,
    Beq(A0, ZERO, -4),
    // If it can't: say 1 !
    Li(A0, 1),
    Li(A1, 0x21),
    Ecall,
    Ebreak,
];

// Ten times are two turns of five; after the revoke the copy is gone, and the line itself is not.
const RETIRES: Trial = Trial {
    frames: 1,
    programs: &[
        Program {
            code: RETIRE,
            data: &[],
            ready: true,
        },
        Program {
            code: SPEAK,
            data: &[],
            ready: true,
        },
    ],
    turns: &[
        Turn::Ticks(5, 6),
        Turn::Ticks(6, 10),
        Turn::Ticks(5, 3),
        Turn::Ticks(6, 20),
    ],
    said: b"aa!",
};

static TRIALS: &[(&str, Trial)] = &[
    ("a thread that starts another", STARTS),
    ("a program whose line is taken away", RETIRES),
];

#[test]
fn threads(rt: HostRuntime) -> Result<(), Fail> {
    for (name, trial) in TRIALS {
        assert_eq!(rt; &trial.run(rt.alloc())?.said[..], trial.said, "{name}");
    }
    Ok(())
}
