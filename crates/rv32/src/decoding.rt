// From a word of 32 bits to its instruction.
ghost use Rattle.std.specs.Prelude.{◌≡◌, ◌+◌, ◌*◌, ◌/◌, ◌%◌, ◌^◌, ◌<◌, ◌≤◌};
ghost use Rattle.std.specs.Option.{unwrap_or};
ghost use Rattle.rv32.specs.declared.forms.Instruction.TheVariants.{Illegal};
ghost use Rattle.rv32.specs.Decode as spec;
ghost use Rattle.rv32.specs.Formats as format;

use crate::forms::{Comparison, Instruction, Loading, Operation, Width};

// `count` bits of a word, from bit `low` on.
fn field(word: u32, low: u32, count: u32) -> u32
    requires { (low < 32) × (count < 32) }
    ensures { result ≡ word / 2 ^ low % 2 ^ count }
{
    word >> low & (1 << count) - 1
}

// The bits of `high` and then the `width` bits of `low`.
fn joined(high: u32, width: u32, low: u32) -> u32
    requires { (width < 32) × ((low < 2 ^ width) × (high * 2 ^ width < 2 ^ 32)) }
    ensures { result ≡ high * 2 ^ width + low }
{
    high << width | low
}

// A number whose highest bit, of value `sign`, says that it is negative.
fn extended(value: u32, sign: u32) -> i32
    requires { (value < 2 * sign) × (sign ≤ 2 ^ 29) }
    ensures { result ≡ format.extend sign value }
{
    if value < sign {
        value as i32
    } else {
        value as i32 - 2 * sign as i32
    }
}

fn i_immediate(word: u32) -> i32
    ensures { result ≡ format.imm_i word }
{
    extended(word >> 20, 0x800)
}

fn s_immediate(word: u32) -> i32
    ensures { result ≡ format.imm_s word }
{
    extended(joined(word >> 25, 5, field(word, 7, 5)), 0x800)
}

fn b_immediate(word: u32) -> i32
    ensures { result ≡ format.imm_b word }
{
    let top = joined(word >> 31, 1, field(word, 7, 1));
    let middle = joined(top, 6, field(word, 25, 6));
    extended(joined(middle, 4, field(word, 8, 4)) << 1, 0x1000)
}

fn u_immediate(word: u32) -> i32
    ensures { result ≡ format.imm_u word }
{
    (word >> 12 << 12).cast_signed()
}

fn j_immediate(word: u32) -> i32
    ensures { result ≡ format.imm_j word }
{
    let top = joined(word >> 31, 8, field(word, 12, 8));
    let middle = joined(top, 1, field(word, 20, 1));
    extended(joined(middle, 10, field(word, 21, 10)) << 1, 0x10_0000)
}

// Tables and no TryFrom of a number: funct3 and funct7 are codes within one opcode, whoever reads the
// tables wants them side by side, and a TryFrom's error would be read by nobody.
fn comparison(funct3: u32) -> Option<Comparison>
    ensures { result ≡ spec.comparison funct3 }
{
    match funct3 {
        0 => Some(Comparison::Eq),
        1 => Some(Comparison::Ne),
        4 => Some(Comparison::Lt),
        5 => Some(Comparison::Ge),
        6 => Some(Comparison::Ltu),
        7 => Some(Comparison::Geu),
        _ => None,
    }
}

fn loading(funct3: u32) -> Option<Loading>
    ensures { result ≡ spec.loading funct3 }
{
    match funct3 {
        0 => Some(Loading::Lb),
        1 => Some(Loading::Lh),
        2 => Some(Loading::Lw),
        4 => Some(Loading::Lbu),
        5 => Some(Loading::Lhu),
        _ => None,
    }
}

fn width_of(funct3: u32) -> Option<Width>
    ensures { result ≡ spec.width_of funct3 }
{
    match funct3 {
        0 => Some(Width::Byte),
        1 => Some(Width::Half),
        2 => Some(Width::Word),
        _ => None,
    }
}

// There is no SUBI; funct7 is part of the immediate but for shifts.
fn immediate_operation(funct7: u32, funct3: u32) -> Option<Operation>
    ensures { result ≡ spec.immediate_operation funct7 funct3 }
{
    match (funct3, funct7) {
        (0, _) => Some(Operation::Add),
        (1, 0x00) => Some(Operation::Sll),
        (2, _) => Some(Operation::Slt),
        (3, _) => Some(Operation::Sltu),
        (4, _) => Some(Operation::Xor),
        (5, 0x00) => Some(Operation::Srl),
        (5, 0x20) => Some(Operation::Sra),
        (6, _) => Some(Operation::Or),
        (7, _) => Some(Operation::And),
        _ => None,
    }
}

fn operation(funct7: u32, funct3: u32) -> Option<Operation>
    ensures { result ≡ spec.operation funct7 funct3 }
{
    match (funct7, funct3) {
        (0x00, 0) => Some(Operation::Add),
        (0x20, 0) => Some(Operation::Sub),
        (0x00, 1) => Some(Operation::Sll),
        (0x00, 2) => Some(Operation::Slt),
        (0x00, 3) => Some(Operation::Sltu),
        (0x00, 4) => Some(Operation::Xor),
        (0x00, 5) => Some(Operation::Srl),
        (0x20, 5) => Some(Operation::Sra),
        (0x00, 6) => Some(Operation::Or),
        (0x00, 7) => Some(Operation::And),
        _ => None,
    }
}

fn system(word: u32) -> Option<Instruction>
    ensures { unwrap_or result Illegal ≡ spec.system word }
{
    match word {
        0x0000_0073 => Some(Instruction::Ecall),
        0x0010_0073 => Some(Instruction::Ebreak),
        _ => None,
    }
}

// The instruction that a word is; none where a table has no such row.
// Opcodes are numbers here, since the format gives them: an enum would only name each of them once.
fn known(word: u32) -> Option<Instruction>
    ensures { unwrap_or result Illegal ≡ spec.decode word }
{
    let rd = field(word, 7, 5) as u8;
    let funct3 = field(word, 12, 3);
    let rs1 = field(word, 15, 5) as u8;
    let rs2 = field(word, 20, 5) as u8;
    let funct7 = field(word, 25, 7);
    let instruction = match (field(word, 0, 7), funct3) {
        (0x37, _) => Instruction::Lui {
            rd,
            immediate: u_immediate(word),
        },
        (0x17, _) => Instruction::Auipc {
            rd,
            immediate: u_immediate(word),
        },
        (0x6f, _) => Instruction::Jal {
            rd,
            offset: j_immediate(word),
        },
        (0x67, 0) => Instruction::Jalr {
            rd,
            rs1,
            offset: i_immediate(word),
        },
        (0x63, _) => Instruction::Branch {
            when: comparison(funct3)?,
            rs1,
            rs2,
            offset: b_immediate(word),
        },
        (0x03, _) => Instruction::Load {
            what: loading(funct3)?,
            rd,
            rs1,
            offset: i_immediate(word),
        },
        (0x23, _) => Instruction::Store {
            width: width_of(funct3)?,
            rs1,
            rs2,
            offset: s_immediate(word),
        },
        (0x13, _) => Instruction::OpImm {
            operation: immediate_operation(funct7, funct3)?,
            rd,
            rs1,
            immediate: i_immediate(word),
        },
        (0x33, _) => Instruction::Op {
            operation: operation(funct7, funct3)?,
            rd,
            rs1,
            rs2,
        },
        (0x0f, 0) => Instruction::Fence {
            rd,
            rs1,
            ordering: (word >> 20) as u16,
        },
        (0x73, _) => system(word)?,
        _ => return None,
    };
    Some(instruction)
}

pub fn decode(word: u32) -> Instruction
    ensures { result ≡ spec.decode word }
{
    known(word).unwrap_or(Instruction::Illegal)
}
