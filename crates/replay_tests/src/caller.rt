// A program that makes the calls of a list, and says words that come back.
use assembler::Line::{Addi, Beq, Ecall, Jal, Li, Lw, Sw};
use assembler::{A0, A1, A2, A3, A4, A5, A7, Line, S0, S1, T0, ZERO};

// Behind the code, from 108 on, each call has eight words: its number, its six arguments, and how many
// of the words that come back are to be said, the lowest byte of each. The first call takes 10
// instructions up to its ECALL and each later one 9; after the ECALL come 10, and 8 for each word.
pub const CALLER: &[Line] = &[
    Li(S0, 108),
    // The next call.
    Lw(A7, 0, S0),
    Lw(A0, 4, S0),
    Lw(A1, 8, S0),
    Lw(A2, 12, S0),
    Lw(A3, 16, S0),
    Lw(A4, 20, S0),
    Lw(A5, 24, S0),
    Lw(S1, 28, S0),
    Ecall,
    // What came back is kept from 0x700 on.
    Sw(A0, 0x700, ZERO),
    Sw(A1, 0x704, ZERO),
    Sw(A2, 0x708, ZERO),
    Sw(A3, 0x70c, ZERO),
    Sw(A4, 0x710, ZERO),
    Sw(A5, 0x714, ZERO),
    Li(T0, 0x700),
    // The next word, if there is one.
    Beq(S1, ZERO, 8),
    Lw(A1, 0, T0),
    Li(A7, 11),
    Li(A0, 1),
    Ecall,
    Addi(T0, T0, 4),
    Addi(S1, S1, -1),
    Jal(ZERO, -7),
    // On to the next call.
    Addi(S0, S0, 32),
    Jal(ZERO, -25),
];
