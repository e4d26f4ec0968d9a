// Programs that cut pages and map them.
use crate::setting::Program;
use crate::trial::{Trial, state};
use crate::turns::Turn;
use assembler::Line::{Addi, Blt, Bne, Ebreak, Ecall, Lbu, Li, Lui, Lw, Sw};
use assembler::{A0, A1, A2, A3, A7, Line, T0, T1, T2, T3, ZERO};
use model::State;
use std::test::Fail;

const LOSE: &[Line] = &[
    // cut 0 page 7
    Li(A7, 0),
    Li(A0, 0),
    Li(A1, 3),
    Li(A2, 0),
    Li(A3, 7),
    Ecall,
    // map 7 5 1
    Li(A7, 7),
    Li(A0, 7),
    Li(A1, 5),
    Li(A2, 1),
    Ecall,
    // 90 at 0x17fc, and say what is there
    Lui(T0, 0x1000),
    Li(T1, 90),
    Sw(T1, 0x7fc, T0),
    Lbu(A1, 0x7fc, T0),
    Li(A7, 11),
    Li(A0, 1),
    Ecall,
    // revoke 0, and say what came back
    Li(A7, 4),
    Li(A0, 0),
    Ecall,
    Addi(A1, A0, 0),
    Li(A7, 11),
    Li(A0, 1),
    Ecall,
    // The page is gone: this stops the thread.
    Lbu(A1, 0x7fc, T0),
    Li(A7, 11),
    Li(A0, 1),
    Ecall,
];

// Of 60 times the thread needs 26; then it is stopped.
static LOSES: Trial = Trial {
    frames: 1,
    programs: &[Program {
        code: LOSE,
        data: &[],
        ready: true,
    }],
    turns: &[Turn::Ticks(5, 60)],
    said: &[90, 0],
};

#[test]
fn loses_its_page(rt: HostRuntime) -> Result<(), Fail> {
    let outcome = LOSES.run(rt.alloc())?;
    assert_eq!(rt; &outcome.said[..], LOSES.said);
    assert_eq!(rt; state(&outcome.world, 5), Some((State::Stopped, 0)));
    Ok(())
}

const CUT_AGAIN: &[Line] = &[
    // cut 0 page 7
    Li(A7, 0),
    Li(A0, 0),
    Li(A1, 3),
    Li(A2, 0),
    Li(A3, 7),
    Ecall,
    // map 7 5 1
    Li(A7, 7),
    Li(A0, 7),
    Li(A1, 5),
    Li(A2, 1),
    Ecall,
    // All its bytes are 255 now.
    Lui(T1, 0x1000),
    Lui(T2, 0x2000),
    Li(T3, -1),
    Sw(T3, 0, T1),
    Addi(T1, T1, 4),
    Blt(T1, T2, -2),
    // revoke 0
    Li(A7, 4),
    Li(A0, 0),
    Ecall,
    // cut 0 page 7, and say what came back
    Li(A7, 0),
    Li(A0, 0),
    Li(A1, 3),
    Li(A2, 0),
    Li(A3, 7),
    Ecall,
    Addi(A1, A0, 0),
    Li(A7, 11),
    Li(A0, 1),
    Ecall,
    // map 7 5 1, and say what came back
    Li(A7, 7),
    Li(A0, 7),
    Li(A1, 5),
    Li(A2, 1),
    Ecall,
    Addi(A1, A0, 0),
    Li(A7, 11),
    Li(A0, 1),
    Ecall,
    // Say a z if all words are 0.
    Lui(T1, 0x1000),
    Lw(A2, 0, T1),
    Bne(A2, ZERO, 7),
    Addi(T1, T1, 4),
    Blt(T1, T2, -3),
    Li(A1, 0x7a),
    Li(A7, 11),
    Li(A0, 1),
    Ecall,
    Ebreak,
];

// The pool has one frame, so the second page lies where the first lay. Its place in the space is free
// again. 1,024 words are written in three times each, and read in four.
static CUTS_AGAIN: Trial = Trial {
    frames: 1,
    programs: &[Program {
        code: CUT_AGAIN,
        data: &[],
        ready: true,
    }],
    turns: &[Turn::Ticks(5, 7300)],
    said: &[0, 0, 0x7a],
};

#[test]
fn cuts_zeros_again(rt: HostRuntime) -> Result<(), Fail> {
    assert_eq!(rt; &CUTS_AGAIN.run(rt.alloc())?.said[..], CUTS_AGAIN.said);
    Ok(())
}
