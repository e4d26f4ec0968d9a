// Programs that meet at port 2.
use crate::setting::Program;
use crate::trial::Trial;
use crate::turns::Turn;
use assembler::Line::{Add, Addi, Ebreak, Ecall, Jal, Lbu, Li, Lui, Sb};
use assembler::{A0, A1, A2, A3, A4, A5, A7, Line, S0, T0, T1, ZERO};
use std::test::Fail;

const ASK: &[Line] = &[
    // copy 2 7, rights to write, badge 7
    Li(A7, 1),
    Li(A0, 2),
    Li(A1, 7),
    Li(A2, 2),
    Li(A3, 7),
    Ecall,
    // send 7, hand on nothing, 1 2 3 4
    Li(A7, 5),
    Li(A0, 7),
    Li(A1, -1),
    Li(A2, 1),
    Li(A3, 2),
    Li(A4, 3),
    Li(A5, 4),
    Ecall,
    // receive 2 8
    Li(A7, 6),
    Li(A0, 2),
    Li(A1, 8),
    Ecall,
    // say the first word
    Addi(A1, A2, 0),
    Li(A7, 11),
    Li(A0, 1),
    Ecall,
    Ebreak,
];

const REPLY: &[Line] = &[
    // receive 2 8
    Li(A7, 6),
    Li(A0, 2),
    Li(A1, 8),
    Ecall,
    // The sum of the words and the badge.
    Add(S0, A2, A3),
    Add(S0, S0, A4),
    Add(S0, S0, A5),
    Add(S0, S0, A1),
    // say the badge
    Li(A7, 11),
    Li(A0, 1),
    Ecall,
    // send 2, hand on nothing, the sum
    Li(A7, 5),
    Li(A0, 2),
    Li(A1, -1),
    Addi(A2, S0, 0),
    Ecall,
    // say what came back
    Addi(A1, A0, 0),
    Li(A7, 11),
    Li(A0, 1),
    Ecall,
    Ebreak,
];

// Thread 5 waits in its fourteenth time. Thread 6 meets it, says the badge 7, and waits with the reply,
// since nobody asks yet. Thread 5 comes to receive in four times; 6 says 0, and 5 the reply:
// 1 + 2 + 3 + 4 + 7 = 17.
const TALKS: Trial = Trial {
    frames: 1,
    programs: &[
        Program {
            code: ASK,
            data: &[],
            ready: true,
        },
        Program {
            code: REPLY,
            data: &[],
            ready: true,
        },
    ],
    turns: &[
        Turn::Ticks(5, 20),
        Turn::Ticks(6, 20),
        Turn::Ticks(5, 4),
        Turn::Ticks(6, 4),
        Turn::Ticks(5, 4),
    ],
    said: &[7, 0, 17],
};

// Receives at 2, into slot 11, and says the first word; again and again, nine times for each.
const RECEIVE: &[Line] = &[
    Li(A7, 6),
    Li(A0, 2),
    Li(A1, 11),
    Ecall,
    Addi(A1, A2, 0),
    Li(A7, 11),
    Li(A0, 1),
    Ecall,
    Jal(ZERO, -8),
];

// Sends a letter at 2.
const SEND_A: &[Line] = &[
    Li(A7, 5),
    Li(A0, 2),
    Li(A1, -1),
    Li(A2, 0x61),
    Ecall,
    Ebreak,
];

const SEND_B: &[Line] = &[
    Li(A7, 5),
    Li(A0, 2),
    Li(A1, -1),
    Li(A2, 0x62),
    Ecall,
    Ebreak,
];

const SEND_C: &[Line] = &[
    Li(A7, 5),
    Li(A0, 2),
    Li(A1, -1),
    Li(A2, 0x63),
    Ecall,
    Ebreak,
];

// The senders 6, 7 and 8 have the letters a, b and c, and come in the order 7, 6, 8.
const QUEUES: Trial = Trial {
    frames: 1,
    programs: &[
        Program {
            code: RECEIVE,
            data: &[],
            ready: true,
        },
        Program {
            code: SEND_A,
            data: &[],
            ready: true,
        },
        Program {
            code: SEND_B,
            data: &[],
            ready: true,
        },
        Program {
            code: SEND_C,
            data: &[],
            ready: true,
        },
    ],
    turns: &[
        Turn::Ticks(7, 5),
        Turn::Ticks(6, 5),
        Turn::Ticks(8, 5),
        Turn::Ticks(5, 40),
    ],
    said: b"bac",
};

// The receivers 5 and 6 come in the order 6, 5; then 7 sends a, which goes to 6, and 8 sends b, which
// goes to 5. 5 has its times first.
const RECEIVERS_QUEUE: Trial = Trial {
    frames: 1,
    programs: &[
        Program {
            code: RECEIVE,
            data: &[],
            ready: true,
        },
        Program {
            code: RECEIVE,
            data: &[],
            ready: true,
        },
        Program {
            code: SEND_A,
            data: &[],
            ready: true,
        },
        Program {
            code: SEND_B,
            data: &[],
            ready: true,
        },
    ],
    turns: &[
        Turn::Ticks(6, 4),
        Turn::Ticks(5, 4),
        Turn::Ticks(7, 5),
        Turn::Ticks(8, 5),
        Turn::Ticks(5, 4),
        Turn::Ticks(6, 4),
    ],
    said: b"ba",
};

const HAND_ON: &[Line] = &[
    // map 3 5 1
    Li(A7, 7),
    Li(A0, 3),
    Li(A1, 5),
    Li(A2, 1),
    Ecall,
    // a p at 0x1000
    Lui(T0, 0x1000),
    Li(T1, 0x70),
    Sb(T1, 0, T0),
    // send 2, hand on 3
    Li(A7, 5),
    Li(A0, 2),
    Li(A1, 3),
    Ecall,
    // drop 3
    Li(A7, 3),
    Li(A0, 3),
    Ecall,
    // say what came back
    Addi(A1, A0, 0),
    Li(A7, 11),
    Li(A0, 1),
    Ecall,
    Ebreak,
];

const READ: &[Line] = &[
    // receive 2 8
    Li(A7, 6),
    Li(A0, 2),
    Li(A1, 8),
    Ecall,
    // map 8 6 1
    Li(A7, 7),
    Li(A0, 8),
    Li(A1, 6),
    Li(A2, 1),
    Ecall,
    // say the byte at 0x1000
    Lui(T0, 0x1000),
    Lbu(A1, 0, T0),
    Li(A7, 11),
    Li(A0, 1),
    Ecall,
    Ebreak,
];

// Thread 6 waits. Thread 5 hands on its page, so that slot 3 is empty and the drop gets no; thread 6
// finds the page in slot 8 and the p in it.
const HANDS_ON: Trial = Trial {
    frames: 1,
    programs: &[
        Program {
            code: HAND_ON,
            data: &[],
            ready: true,
        },
        Program {
            code: READ,
            data: &[],
            ready: true,
        },
    ],
    turns: &[Turn::Ticks(6, 4), Turn::Ticks(5, 20), Turn::Ticks(6, 20)],
    said: &[255, 0x70],
};

static TRIALS: &[(&str, Trial)] = &[
    ("question and reply", TALKS),
    ("senders in a row", QUEUES),
    ("receivers in a row", RECEIVERS_QUEUE),
    ("a page that is handed on", HANDS_ON),
];

#[test]
fn ports(rt: HostRuntime) -> Result<(), Fail> {
    for (name, trial) in TRIALS {
        assert_eq!(rt; &trial.run(rt.alloc())?.said[..], trial.said, "{name}");
    }
    Ok(())
}
