// Each instruction at its corner cases. The words are an assembler's; the results are worked out by hand
// from what the specification says.
use crate::ram::Ram;
use crate::ticks::{started, stepped, tick};
use rights::{Answer, Call};
use rv32::{Cpu, Memory, Step, act};
use std::ops::ControlFlow;

// An instruction at pc 16, x1, x2, and what x3 and the pc are then. At 0x100 are the bytes
// 80 7f ff 01 00 80 34 12.
static STEPS: &[(u32, u32, u32, u32, u32)] = &[
    // add x3, x1, x2
    (0x0020_81b3, 1, 2, 3, 20),
    (0x0020_81b3, 0xffff_ffff, 1, 0, 20),
    (0x0020_81b3, 0x7fff_ffff, 1, 0x8000_0000, 20),
    // sub x3, x1, x2
    (0x4020_81b3, 0, 1, 0xffff_ffff, 20),
    (0x4020_81b3, 0x8000_0000, 1, 0x7fff_ffff, 20),
    (0x4020_81b3, 5, 5, 0, 20),
    // sll x3, x1, x2
    (0x0020_91b3, 1, 31, 0x8000_0000, 20),
    (0x0020_91b3, 1, 32, 1, 20),
    (0x0020_91b3, 0x8000_0001, 1, 2, 20),
    (0x0020_91b3, 3, 0xffff_ffff, 0x8000_0000, 20),
    // slt x3, x1, x2
    (0x0020_a1b3, 0xffff_ffff, 0, 1, 20),
    (0x0020_a1b3, 0, 0xffff_ffff, 0, 20),
    (0x0020_a1b3, 0x8000_0000, 0x7fff_ffff, 1, 20),
    (0x0020_a1b3, 5, 5, 0, 20),
    // sltu x3, x1, x2
    (0x0020_b1b3, 0xffff_ffff, 0, 0, 20),
    (0x0020_b1b3, 0, 0xffff_ffff, 1, 20),
    (0x0020_b1b3, 0x8000_0000, 0x7fff_ffff, 0, 20),
    (0x0020_b1b3, 5, 5, 0, 20),
    // xor x3, x1, x2
    (0x0020_c1b3, 0xff00_ff00, 0x0f0f_0f0f, 0xf00f_f00f, 20),
    (0x0020_c1b3, 0xffff_ffff, 0xffff_ffff, 0, 20),
    // srl x3, x1, x2
    (0x0020_d1b3, 0x8000_0000, 31, 1, 20),
    (0x0020_d1b3, 0x8000_0000, 1, 0x4000_0000, 20),
    (0x0020_d1b3, 0xffff_ffff, 32, 0xffff_ffff, 20),
    // sra x3, x1, x2
    (0x4020_d1b3, 0x8000_0000, 31, 0xffff_ffff, 20),
    (0x4020_d1b3, 0x8000_0000, 1, 0xc000_0000, 20),
    (0x4020_d1b3, 0x7fff_ffff, 31, 0, 20),
    (0x4020_d1b3, 0x4000_0000, 33, 0x2000_0000, 20),
    // or x3, x1, x2
    (0x0020_e1b3, 0xf0f0_f0f0, 0x0f0f_0000, 0xffff_f0f0, 20),
    (0x0020_e1b3, 0, 0, 0, 20),
    // and x3, x1, x2
    (0x0020_f1b3, 0xff00_ff00, 0x0ff0_0ff0, 0x0f00_0f00, 20),
    (0x0020_f1b3, 0xffff_ffff, 0x8000_0000, 0x8000_0000, 20),
    // addi x3, x1, -1
    (0xfff0_8193, 0, 0, 0xffff_ffff, 20),
    (0xfff0_8193, 0x8000_0000, 0, 0x7fff_ffff, 20),
    // addi x3, x1, 2047
    (0x7ff0_8193, 1, 0, 0x800, 20),
    // addi x3, x1, -2048
    (0x8000_8193, 0, 0, 0xffff_f800, 20),
    // slti x3, x1, -1
    (0xfff0_a193, 0xffff_fffe, 0, 1, 20),
    (0xfff0_a193, 0xffff_ffff, 0, 0, 20),
    (0xfff0_a193, 0, 0, 0, 20),
    // slti x3, x1, 2047
    (0x7ff0_a193, 0x7ff, 0, 0, 20),
    (0x7ff0_a193, 0x8000_0000, 0, 1, 20),
    // sltiu x3, x1, -1
    (0xfff0_b193, 0xffff_fffe, 0, 1, 20),
    (0xfff0_b193, 0xffff_ffff, 0, 0, 20),
    (0xfff0_b193, 0, 0, 1, 20),
    // sltiu x3, x1, 1
    (0x0010_b193, 0, 0, 1, 20),
    (0x0010_b193, 1, 0, 0, 20),
    // xori x3, x1, -1
    (0xfff0_c193, 0, 0, 0xffff_ffff, 20),
    (0xfff0_c193, 0x1234_5678, 0, 0xedcb_a987, 20),
    // ori x3, x1, -2048
    (0x8000_e193, 1, 0, 0xffff_f801, 20),
    // ori x3, x1, 1365
    (0x5550_e193, 0x8000_0000, 0, 0x8000_0555, 20),
    // andi x3, x1, -256
    (0xf000_f193, 0x1234_5678, 0, 0x1234_5600, 20),
    // andi x3, x1, 2047
    (0x7ff0_f193, 0xffff_ffff, 0, 0x7ff, 20),
    // slli x3, x1, 31
    (0x01f0_9193, 1, 0, 0x8000_0000, 20),
    (0x01f0_9193, 2, 0, 0, 20),
    // slli x3, x1, 0
    (0x0000_9193, 0x89ab_cdef, 0, 0x89ab_cdef, 20),
    // srli x3, x1, 31
    (0x01f0_d193, 0x8000_0000, 0, 1, 20),
    // srli x3, x1, 1
    (0x0010_d193, 0xffff_ffff, 0, 0x7fff_ffff, 20),
    // srai x3, x1, 31
    (0x41f0_d193, 0x8000_0000, 0, 0xffff_ffff, 20),
    (0x41f0_d193, 0x7fff_ffff, 0, 0, 20),
    // srai x3, x1, 1
    (0x4010_d193, 0x8000_0002, 0, 0xc000_0001, 20),
    // lui x3, 0x80000
    (0x8000_01b7, 0, 0, 0x8000_0000, 20),
    // lui x3, 0xfffff
    (0xffff_f1b7, 0, 0, 0xffff_f000, 20),
    // lui x3, 1
    (0x0000_11b7, 0xffff_ffff, 0xffff_ffff, 0x1000, 20),
    // auipc x3, 1
    (0x0000_1197, 0, 0, 0x1010, 20),
    // auipc x3, 0xfffff
    (0xffff_f197, 0, 0, 0xffff_f010, 20),
    // jal x3, 8
    (0x0080_01ef, 0, 0, 20, 24),
    // jal x3, -16
    (0xff1f_f1ef, 0, 0, 20, 0),
    // jal x3, -20
    (0xfedf_f1ef, 0, 0, 20, 0xffff_fffc),
    // jal x3, 1048572
    (0x7fdf_f1ef, 0, 0, 20, 0x0010_000c),
    // jal x3, -1048576
    (0x8000_01ef, 0, 0, 20, 0xfff0_0010),
    // jal x3, 2048
    (0x0010_01ef, 0, 0, 20, 0x810),
    // jalr x3, 0(x1)
    (0x0000_81e7, 0x100, 0, 20, 0x100),
    (0x0000_81e7, 0x101, 0, 20, 0x100),
    // jalr x3, -1(x1)
    (0xfff0_81e7, 0x105, 0, 20, 0x104),
    (0xfff0_81e7, 1, 0, 20, 0),
    // jalr x3, -4(x1)
    (0xffc0_81e7, 0, 0, 20, 0xffff_fffc),
    // jalr x3, 5(x1)
    (0x0050_81e7, 0xffff_ffff, 0, 20, 4),
    // jalr x3, 0(x3)
    (0x0001_81e7, 0x100, 0, 20, 0),
    // beq x1, x2, 8
    (0x0020_8463, 7, 7, 0, 24),
    (0x0020_8463, 7, 8, 0, 20),
    // bne x1, x2, 8
    (0x0020_9463, 7, 7, 0, 20),
    (0x0020_9463, 7, 8, 0, 24),
    // blt x1, x2, 8
    (0x0020_c463, 0xffff_ffff, 0, 0, 24),
    (0x0020_c463, 0, 0xffff_ffff, 0, 20),
    (0x0020_c463, 0x8000_0000, 0x7fff_ffff, 0, 24),
    (0x0020_c463, 7, 7, 0, 20),
    // bge x1, x2, 8
    (0x0020_d463, 0xffff_ffff, 0, 0, 20),
    (0x0020_d463, 0, 0xffff_ffff, 0, 24),
    (0x0020_d463, 0x8000_0000, 0x7fff_ffff, 0, 20),
    (0x0020_d463, 7, 7, 0, 24),
    // bltu x1, x2, 8
    (0x0020_e463, 0xffff_ffff, 0, 0, 20),
    (0x0020_e463, 0, 0xffff_ffff, 0, 24),
    (0x0020_e463, 0x8000_0000, 0x7fff_ffff, 0, 20),
    (0x0020_e463, 7, 7, 0, 20),
    // bgeu x1, x2, 8
    (0x0020_f463, 0xffff_ffff, 0, 0, 24),
    (0x0020_f463, 0, 0xffff_ffff, 0, 20),
    (0x0020_f463, 0x8000_0000, 0x7fff_ffff, 0, 24),
    (0x0020_f463, 7, 7, 0, 24),
    // beq x1, x2, -16
    (0xfe20_88e3, 0, 0, 0, 0),
    (0xfe20_88e3, 0, 1, 0, 20),
    // beq x1, x2, -4096
    (0x8020_8063, 0, 0, 0, 0xffff_f010),
    // beq x1, x2, 4092
    (0x7e20_8ee3, 0, 0, 0, 0x100c),
    // beq x1, x2, 2048
    (0x0020_80e3, 0, 0, 0, 0x810),
    // beq x1, x2, 6
    (0x0020_8363, 0, 1, 0, 20),
    // fence iorw, iorw
    (0x0ff0_000f, 0, 0, 0, 20),
    // fence.tso
    (0x8330_000f, 0, 0, 0, 20),
    // pause
    (0x0100_000f, 0, 0, 0, 20),
    // fence, with an rd and an rs1
    (0xfff0_818f, 5, 0, 0, 20),
    // add x0, x1, x2
    (0x0020_8033, 1, 2, 0, 20),
    // jal x0, 8
    (0x0080_006f, 0, 0, 0, 24),
    // lb x3, 0(x1)
    (0x0000_8183, 0x100, 0, 0xffff_ff80, 20),
    (0x0000_8183, 0x101, 0, 0x7f, 20),
    (0x0000_8183, 0x102, 0, 0xffff_ffff, 20),
    (0x0000_8183, 0xfff, 0, 0, 20),
    // lbu x3, 0(x1)
    (0x0000_c183, 0x100, 0, 0x80, 20),
    (0x0000_c183, 0x102, 0, 0xff, 20),
    // lb x3, -1(x1)
    (0xfff0_8183, 0x104, 0, 1, 20),
    // lh x3, 0(x1)
    (0x0000_9183, 0x100, 0, 0x7f80, 20),
    (0x0000_9183, 0x102, 0, 0x1ff, 20),
    (0x0000_9183, 0x104, 0, 0xffff_8000, 20),
    // lhu x3, 0(x1)
    (0x0000_d183, 0x104, 0, 0x8000, 20),
    (0x0000_d183, 0x106, 0, 0x1234, 20),
    // lw x3, 0(x1)
    (0x0000_a183, 0x100, 0, 0x01ff_7f80, 20),
    (0x0000_a183, 0x104, 0, 0x1234_8000, 20),
    (0x0000_a183, 0xffc, 0, 0, 20),
    // lw x3, -4(x1)
    (0xffc0_a183, 0x108, 0, 0x1234_8000, 20),
    // lw x3, 512(x1)
    (0x2000_a183, 0xffff_ff00, 0, 0x01ff_7f80, 20),
    // lw x3, -2048(x1)
    (0x8000_a183, 0x900, 0, 0x01ff_7f80, 20),
];

#[test]
fn steps(rt: HostRuntime) {
    let mut ram = Ram::blank();
    for &(word, a, b, expected, pc) in STEPS {
        ram.hold(word);
        let mut after = started(a, b);
        after.registers[3] = expected;
        after.pc = pc;
        assert_eq!(rt;
            stepped(&ram, a, b),
            Some(after),
            "{word:#010x} at {a:#x} and {b:#x}"
        );
    }
}

// A store at pc 16, x1, x2, and the word that is at 0x100 then.
static STORES: &[(u32, u32, u32, u32)] = &[
    // sb x2, 0(x1)
    (0x0020_8023, 0x100, 0xaabb_ccdd, 0x01ff_7fdd),
    (0x0020_8023, 0x101, 0xaabb_ccdd, 0x01ff_dd80),
    // sb x2, -1(x1)
    (0xfe20_8fa3, 0x104, 0xaabb_ccdd, 0xddff_7f80),
    // sh x2, 0(x1)
    (0x0020_9023, 0x100, 0xaabb_ccdd, 0x01ff_ccdd),
    (0x0020_9023, 0x102, 0xaabb_ccdd, 0xccdd_7f80),
    // sw x2, 0(x1)
    (0x0020_a023, 0x100, 0xaabb_ccdd, 0xaabb_ccdd),
    // sw x2, -2048(x1)
    (0x8020_a023, 0x900, 0xffff_ffff, 0xffff_ffff),
    // sw x2, 2044(x1)
    (0x7e20_ae23, 0xffff_f904, 0, 0),
];

#[test]
fn stores(rt: HostRuntime) {
    let mut ram = Ram::blank();
    for &(word, a, b, expected) in STORES {
        ram.hold(word);
        let mut cpu = started(a, b);
        let flow = tick(&mut cpu, &mut ram);
        assert_eq!(rt; flow, ControlFlow::Continue(()), "{word:#010x} at {a:#x}");
        assert_eq!(rt;
            (ram.word(0x100), cpu.pc),
            (Some(expected), 20),
            "{word:#010x} at {a:#x}"
        );
        assert_eq!(rt;
            ram.word(0x104),
            Some(0x1234_8000),
            "{word:#010x} at {a:#x}"
        );
    }
}

// What stops at pc 16, with x1 and x2.
static STOPS: &[(u32, u32, u32)] = &[
    // jal x3, 6
    (0x0060_01ef, 0, 0),
    // jal x3, 1048574
    (0x7fff_f1ef, 0, 0),
    // jalr x3, 0(x1)
    (0x0000_81e7, 0x102, 0),
    (0x0000_81e7, 0x103, 0),
    // jalr x3, 2(x1)
    (0x0020_81e7, 0x100, 0),
    // beq x1, x2, 6
    (0x0020_8363, 0, 0),
    // bne x1, x2, 6
    (0x0020_9363, 0, 1),
    // blt x1, x2, 4094
    (0x7e20_cfe3, 0, 1),
    // lh x3, 0(x1)
    (0x0000_9183, 0x101, 0),
    (0x0000_9183, 0x103, 0),
    // lhu x3, 1(x1)
    (0x0010_d183, 0x100, 0),
    // lw x3, 0(x1)
    (0x0000_a183, 0x101, 0),
    (0x0000_a183, 0x102, 0),
    (0x0000_a183, 0x103, 0),
    (0x0000_a183, 0x1000, 0),
    (0x0000_a183, 0xffff_fffc, 0),
    // lb x3, 0(x1)
    (0x0000_8183, 0x1000, 0),
    // lbu x3, -1(x1)
    (0xfff0_c183, 0, 0),
    // lh x3, 0(x1)
    (0x0000_9183, 0x1000, 0),
    // sh x2, 0(x1)
    (0x0020_9023, 0x101, 0),
    // sw x2, 0(x1)
    (0x0020_a023, 0x101, 0),
    (0x0020_a023, 0x102, 0),
    // sw x2, 2(x1)
    (0x0020_a123, 0x100, 0),
    // ebreak
    (0x0010_0073, 0, 0),
    // no instructions
    (0x0000_0000, 0, 0),
    (0xffff_ffff, 0, 0),
    (0x0000_0001, 0, 0),
    // FENCE.I
    (0x0000_100f, 0, 0),
    // MRET
    (0x3020_0073, 0, 0),
    // WFI
    (0x1050_0073, 0, 0),
    // CSRRW
    (0x0000_1073, 0, 0),
    // ECALL with an rd
    (0x0000_00f3, 0, 0),
    // URET
    (0x0020_0073, 0, 0),
    // MUL
    (0x0220_81b3, 0, 0),
    // AND with funct7 0x20
    (0x4020_f1b3, 0, 0),
    // SLL with funct7 0x20
    (0x4020_91b3, 0, 0),
    // SLLI by 32
    (0x0200_9193, 0, 0),
    // SLLI with funct7 0x20
    (0x4000_9193, 0, 0),
    // SRLI by 32
    (0x0200_d193, 0, 0),
    // SRAI by 32
    (0x4200_d193, 0, 0),
    // SRLI with funct7 0x10
    (0x2000_d193, 0, 0),
    // LWU
    (0x0000_e183, 0, 0),
    // LD
    (0x0000_b183, 0, 0),
    // LOAD with funct3 7
    (0x0000_f183, 0, 0),
    // SD
    (0x0020_b023, 0, 0),
    // STORE with funct3 4
    (0x0020_c023, 0, 0),
    // BRANCH with funct3 2
    (0x0020_a063, 0, 0),
    // BRANCH with funct3 3
    (0x0020_b063, 0, 0),
    // JALR with funct3 1
    (0x0000_9067, 0, 0),
    // ADDIW
    (0x0010_809b, 0, 0),
    // an AMO
    (0x0000_a0af, 0, 0),
    // FLW
    (0x0000_a087, 0, 0),
    // a compressed one
    (0x0000_4501, 0, 0),
];

#[test]
fn stops(rt: HostRuntime) {
    let mut ram = Ram::blank();
    for &(word, a, b) in STOPS {
        ram.hold(word);
        let step = act(&started(a, b), &ram);
        assert_eq!(rt; step, Step::Stop, "{word:#010x} at {a:#x} and {b:#x}");
    }
    // A pc that is no multiple of 4, or where there is no page.
    ram.hold(0x0000_0013);
    for pc in [17, 18, 19, 4096, 0xffff_fffc] {
        assert_eq!(rt; act(&Cpu::fresh(pc), &ram), Step::Stop, "at {pc:#x}");
    }
}

const ECALL: u32 = 0x0000_0073;

// x17 and x10 to x12 of calls that there are not.
const REFUSED: &[(u32, u32, u32, u32)] = &[
    (13, 0, 0, 0),
    (0xffff_ffff, 0, 0, 0),
    // cut: a pool of no frames, one that is too large, a kind 4
    (0, 1, 0, 0),
    (0, 1, 0, 4097),
    (0, 1, 4, 0),
    // copy: rights above 7
    (1, 1, 2, 8),
];

#[test]
fn refuses(rt: HostRuntime) {
    let mut ram = Ram::blank();
    ram.hold(ECALL);
    for &(number, a, b, c) in REFUSED {
        let mut cpu = started(0, 0);
        for (register, value) in [(17, number), (10, a), (11, b), (12, c)] {
            cpu.put(register, value);
        }
        let mut after = cpu;
        after.registers[10] = 0xffff_ffff;
        after.pc = 20;
        let flow = tick(&mut cpu, &mut ram);
        assert_eq!(rt;
            flow,
            ControlFlow::Continue(()),
            "call {number} of {a}, {b}, {c}"
        );
        assert_eq!(rt; cpu, after, "call {number} of {a}, {b}, {c}");
    }
}

#[test]
fn sends(rt: HostRuntime) {
    let mut ram = Ram::blank();
    ram.hold(ECALL);
    let mut cpu = started(0, 0);
    for number in 10..17u8 {
        cpu.put(number, u32::from(number));
    }
    cpu.put(17, 5);
    let send = Call::Send {
        port: 10,
        hand_on: 11,
        words: [12, 13, 14, 15],
    };
    assert_eq!(rt; act(&cpu, &ram), Step::Call(send));
}

// What comes back, and x10 to x16 then, if all were 7.
const ANSWERS: &[(Answer, [u32; 7])] = &[
    (Answer::No, [0xffff_ffff, 7, 7, 7, 7, 7, 7]),
    (Answer::Done, [0, 7, 7, 7, 7, 7, 7]),
    (Answer::Heard(255), [0, 255, 7, 7, 7, 7, 7]),
    (
        Answer::Received {
            badge: 1,
            words: [2, 3, 4, 5],
        },
        [0, 1, 2, 3, 4, 5, 7],
    ),
];

#[test]
fn answers(rt: HostRuntime) {
    for (answer, expected) in ANSWERS {
        let mut registers = [7; 32];
        let mut cpu = Cpu {
            pc: 0xffff_fffc,
            registers,
        };
        registers[10..17].copy_from_slice(expected);
        cpu.resume(*answer);
        assert_eq!(rt; cpu, Cpu { pc: 0, registers }, "{answer:?}");
    }
}
