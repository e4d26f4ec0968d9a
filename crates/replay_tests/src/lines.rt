// Programs over line 1.
use crate::setting::Program;
use crate::trial::Trial;
use crate::turns::Turn;
use assembler::Line::{Add, Addi, Bge, Bne, Ebreak, Ecall, Jal, Lbu, Li, Sb, Srli};
use assembler::{A0, A1, A2, A7, Line, S0, S1, T0, T1, T2, T3, ZERO};
use std::test::Fail;

const ECHO: &[Line] = &[
    // hear
    Li(A7, 12),
    Li(A0, 1),
    Ecall,
    // Nothing came in: ask again.
    Bne(A0, ZERO, -3),
    // The byte is in a1: say it.
    Li(A7, 11),
    Li(A0, 1),
    Ecall,
    Jal(ZERO, -7),
];

// In its first four times nothing is there yet. Each byte takes eight: three to hear, one branch, three to
// say, one jump. The last four times ask in vain.
const ECHOES: Trial = Trial {
    frames: 1,
    programs: &[Program {
        code: ECHO,
        data: &[],
        ready: true,
    }],
    turns: &[
        Turn::Ticks(5, 4),
        Turn::Bytes(b"h"),
        Turn::Ticks(5, 8),
        Turn::Bytes(b"i!"),
        Turn::Ticks(5, 20),
    ],
    said: b"hi!",
};

const SUM: &[Line] = &[
    // hear
    Li(A7, 12),
    Li(A0, 1),
    Ecall,
    Bne(A0, ZERO, 3),
    Add(S0, S0, A1),
    Jal(ZERO, -5),
    // That was all: say the sum, and the sum over 256.
    Addi(A1, S0, 0),
    Li(A7, 11),
    Li(A0, 1),
    Ecall,
    Srli(A1, S0, 8),
    Li(A0, 1),
    Ecall,
    Ebreak,
];

// 100 + 200 + 7 = 307 = 1 × 256 + 51, and a line shows what is said modulo 256.
const SUMS: Trial = Trial {
    frames: 1,
    programs: &[Program {
        code: SUM,
        data: &[],
        ready: true,
    }],
    turns: &[Turn::Bytes(&[100, 200, 7]), Turn::Ticks(5, 40)],
    said: &[51, 1],
};

const SORT: &[Line] = &[
    // What is heard goes to memory from 0x700 on; t0 is its end.
    Li(T0, 0x700),
    Li(A7, 12),
    Li(A0, 1),
    Ecall,
    Bne(A0, ZERO, 4),
    Sb(A1, 0, T0),
    Addi(T0, T0, 1),
    Jal(ZERO, -6),
    // Neighbours that are out of order are exchanged, again until none are.
    Li(T3, 0),
    Li(T1, 0x700),
    Addi(T2, T1, 1),
    Bge(T2, T0, 9),
    Lbu(A1, 0, T1),
    Lbu(A2, 0, T2),
    Bge(A2, A1, 4),
    Sb(A2, 0, T1),
    Sb(A1, 0, T2),
    Li(T3, 1),
    Addi(T1, T1, 1),
    Jal(ZERO, -9),
    Bne(T3, ZERO, -12),
    // Say them.
    Li(T1, 0x700),
    Bge(T1, T0, 7),
    Lbu(A1, 0, T1),
    Li(A7, 11),
    Li(A0, 1),
    Ecall,
    Addi(T1, T1, 1),
    Jal(ZERO, -6),
    Ebreak,
];

// Six letters: at most six passes of some sixty instructions each.
const SORTS: Trial = Trial {
    frames: 1,
    programs: &[Program {
        code: SORT,
        data: &[],
        ready: true,
    }],
    turns: &[Turn::Bytes(b"rattle"), Turn::Ticks(5, 600)],
    said: b"aelrtt",
};

const COUNT: &[Line] = &[
    // hear, count in s0 and keep the last in s1
    Li(A7, 12),
    Li(A0, 1),
    Ecall,
    Bne(A0, ZERO, 4),
    Addi(S0, S0, 1),
    Addi(S1, A1, 0),
    Jal(ZERO, -6),
    // Say the count, low byte first, and the last; and again.
    Addi(A1, S0, 0),
    Li(A7, 11),
    Li(A0, 1),
    Ecall,
    Srli(A1, S0, 8),
    Li(A0, 1),
    Ecall,
    Addi(A1, S1, 0),
    Li(A0, 1),
    Ecall,
    Jal(ZERO, -17),
];

// 1,024 = 4 × 256 + 0 bytes find room, all of them 1, and the bytes 2 and 3 are lost. To hear takes
// 1,024 × 7 times, 4 to find no more, and 11 to say so. Then there is room again: one byte more, in
// 7 + 4 + 11 times.
const OVERFLOWS: Trial = Trial {
    frames: 1,
    programs: &[Program {
        code: COUNT,
        data: &[],
        ready: true,
    }],
    turns: &[
        Turn::Same(1, 1024),
        Turn::Bytes(&[2, 3]),
        Turn::Ticks(5, 7183),
        Turn::Bytes(&[7]),
        Turn::Ticks(5, 22),
    ],
    said: &[0, 4, 1, 1, 4, 7],
};

static TRIALS: &[(&str, Trial)] = &[
    ("an echo", ECHOES),
    ("a sum", SUMS),
    ("a sort", SORTS),
    ("a line that is overfull", OVERFLOWS),
];

#[test]
fn lines(rt: HostRuntime) -> Result<(), Fail> {
    for (name, trial) in TRIALS {
        assert_eq!(rt; &trial.run(rt.alloc())?.said[..], trial.said, "{name}");
    }
    Ok(())
}
