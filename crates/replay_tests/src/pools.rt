// A program that cuts what it can get.
use crate::setting::Program;
use crate::trial::Trial;
use crate::turns::Turn;
use assembler::Line::{Addi, Bne, Ebreak, Ecall, Jal, Li};
use assembler::{A0, A1, A2, A3, A7, Line, S0, ZERO};
use std::test::Fail;

const GRAB: &[Line] = &[
    // cut 0 port 7
    Li(A7, 0),
    Li(A0, 0),
    Li(A1, 2),
    Li(A2, 0),
    Li(A3, 7),
    Ecall,
    Bne(A0, ZERO, 6),
    // drop 7, and count
    Li(A7, 3),
    Li(A0, 7),
    Ecall,
    Addi(S0, S0, 1),
    Jal(ZERO, -11),
    // Say how many there were.
    Addi(A1, S0, 0),
    Li(A7, 11),
    Li(A0, 1),
    Ecall,
    // revoke 0
    Li(A7, 4),
    Li(A0, 0),
    Ecall,
    // cut 0 port 7, and say what came back
    Li(A7, 0),
    Li(A0, 0),
    Li(A1, 2),
    Li(A2, 0),
    Li(A3, 7),
    Ecall,
    Addi(A1, A0, 0),
    Li(A7, 11),
    Li(A0, 1),
    Ecall,
    Ebreak,
];

// A frame has room for 4,096 / 64 = 64 ports. A drop gives nothing back, a revoke of the pool all. 64
// ports take twelve times each, and 24 more follow.
static GRABS: Trial = Trial {
    frames: 1,
    programs: &[Program {
        code: GRAB,
        data: &[],
        ready: true,
    }],
    turns: &[Turn::Ticks(5, 800)],
    said: &[64, 0],
};

#[test]
fn grabs_all(rt: HostRuntime) -> Result<(), Fail> {
    assert_eq!(rt; &GRABS.run(rt.alloc())?.said[..], GRABS.said);
    Ok(())
}
