// From an instruction to its word of 32 bits, in the formats of the RISC-V specification.
ghost use Rattle.std.specs.Prelude.{◌≡◌, ◌<◌, ◌/◌, ◌^◌, ◌%◌};
ghost use Rattle.rv32.specs.Encode as spec;
ghost use Rattle.assembler.specs.Lines.{ReadBack};

use rv32::{Comparison, Instruction, Loading, Operation, Width, reads_back};

// `count` bits of a word, from bit `low` on.
fn field(word: u32, low: u32, count: u32) -> u32
    requires { (low < 32) × (count < 32) }
    ensures { result ≡ word / 2 ^ low % 2 ^ count }
{
    word >> low & (1 << count) - 1
}

// A word from its six fields, the highest first: the R format. What is beyond 32 bits is lost.
fn word(funct7: u32, rs2: u32, rs1: u32, funct3: u32, rd: u32, opcode: u32) -> u32
    ensures { result ≡ spec.word funct7 rs2 rs1 funct3 rd opcode % 2 ^ 32 }
{
    let sum = u64::from(funct7) * 0x200_0000
        + u64::from(rs2) * 0x10_0000
        + u64::from(rs1) * 0x8000
        + u64::from(funct3) * 0x1000
        + u64::from(rd) * 0x80
        + u64::from(opcode);
    (sum % 0x1_0000_0000) as u32
}

// The I format: an immediate in the place of funct7 and rs2.
fn word_i(immediate: u32, rs1: u8, funct3: u32, rd: u8, opcode: u32) -> u32
    ensures { result ≡ spec.word_i immediate rs1 funct3 rd opcode % 2 ^ 32 }
{
    let (high, low) = (field(immediate, 5, 7), field(immediate, 0, 5));
    word(high, low, rs1.into(), funct3, rd.into(), opcode)
}

// The S format: in the place of funct7 and rd.
fn word_s(immediate: u32, rs2: u8, rs1: u8, funct3: u32) -> u32
    ensures { result ≡ spec.word_s immediate rs2 rs1 funct3 0x23 % 2 ^ 32 }
{
    let (high, low) = (field(immediate, 5, 7), field(immediate, 0, 5));
    word(high, rs2.into(), rs1.into(), funct3, low, 0x23)
}

// The B format: the same places, bit 12 above all and bit 11 below all.
fn word_b(immediate: u32, rs2: u8, rs1: u8, funct3: u32) -> u32
    ensures { result ≡ spec.word_b immediate rs2 rs1 funct3 0x63 % 2 ^ 32 }
{
    let high = field(immediate, 12, 1) * 64 + field(immediate, 5, 6);
    let low = field(immediate, 1, 4) * 2 + field(immediate, 11, 1);
    word(high, rs2.into(), rs1.into(), funct3, low, 0x63)
}

// The U format: bits 31 to 12 in the place of funct7, rs2, rs1 and funct3.
fn word_u(immediate: u32, rd: u8, opcode: u32) -> u32
    ensures { result ≡ spec.word_u immediate rd opcode % 2 ^ 32 }
{
    word(
        field(immediate, 25, 7),
        field(immediate, 20, 5),
        field(immediate, 15, 5),
        field(immediate, 12, 3),
        rd.into(),
        opcode,
    )
}

// The J format: the same places, bit 20 first, then 10 to 1, 11, and 19 to 12.
fn word_j(immediate: u32, rd: u8) -> u32
    ensures { result ≡ spec.word_j immediate rd 0x6f % 2 ^ 32 }
{
    word(
        field(immediate, 20, 1) * 64 + field(immediate, 5, 6),
        field(immediate, 1, 4) * 2 + field(immediate, 11, 1),
        field(immediate, 15, 5),
        field(immediate, 12, 3),
        rd.into(),
        0x6f,
    )
}

// funct7 of OP, and of shifts by an immediate.
fn funct7(operation: Operation) -> u32
    ensures { result ≡ spec.funct7_of operation }
{
    match operation {
        Operation::Sub | Operation::Sra => 0x20,
        _ => 0x00,
    }
}

// funct3 of OP and OP-IMM.
fn funct3(operation: Operation) -> u32
    ensures { result ≡ spec.funct3_of operation }
{
    match operation {
        Operation::Add | Operation::Sub => 0,
        Operation::Sll => 1,
        Operation::Slt => 2,
        Operation::Sltu => 3,
        Operation::Xor => 4,
        Operation::Srl | Operation::Sra => 5,
        Operation::Or => 6,
        Operation::And => 7,
    }
}

// funct3 of BRANCH.
fn when(comparison: Comparison) -> u32
    ensures { result ≡ spec.when_code comparison }
{
    match comparison {
        Comparison::Eq => 0,
        Comparison::Ne => 1,
        Comparison::Lt => 4,
        Comparison::Ge => 5,
        Comparison::Ltu => 6,
        Comparison::Geu => 7,
    }
}

// funct3 of LOAD.
fn load(loading: Loading) -> u32
    ensures { result ≡ spec.load_code loading }
{
    match loading {
        Loading::Lb => 0,
        Loading::Lh => 1,
        Loading::Lw => 2,
        Loading::Lbu => 4,
        Loading::Lhu => 5,
    }
}

// funct3 of STORE.
fn store(width: Width) -> u32
    ensures { result ≡ spec.width_code width }
{
    match width {
        Width::Byte => 0,
        Width::Half => 1,
        Width::Word => 2,
    }
}

// The word of an instruction, format by format; 0, which is none, for one that is illegal.
fn encoded(instruction: Instruction) -> u32
    ensures { result ≡ spec.encode instruction % 2 ^ 32 }
{
    match instruction {
        Instruction::Lui { rd, immediate } => word_u(immediate.cast_unsigned(), rd, 0x37),
        Instruction::Auipc { rd, immediate } => word_u(immediate.cast_unsigned(), rd, 0x17),
        Instruction::Jal { rd, offset } => word_j(offset.cast_unsigned(), rd),
        Instruction::Jalr { rd, rs1, offset } => word_i(offset.cast_unsigned(), rs1, 0, rd, 0x67),
        Instruction::Branch {
            when: comparison,
            rs1,
            rs2,
            offset,
        } => word_b(offset.cast_unsigned(), rs2, rs1, when(comparison)),
        Instruction::Load {
            what,
            rd,
            rs1,
            offset,
        } => word_i(offset.cast_unsigned(), rs1, load(what), rd, 0x03),
        Instruction::Store {
            width,
            rs1,
            rs2,
            offset,
        } => word_s(offset.cast_unsigned(), rs2, rs1, store(width)),
        Instruction::OpImm {
            operation,
            rd,
            rs1,
            immediate,
        } => word_i(immediate.cast_unsigned(), rs1, funct3(operation), rd, 0x13),
        Instruction::Op {
            operation,
            rd,
            rs1,
            rs2,
        } => word(
            funct7(operation),
            rs2.into(),
            rs1.into(),
            funct3(operation),
            rd.into(),
            0x33,
        ),
        Instruction::Fence { rd, rs1, ordering } => word_i(ordering.into(), rs1, 0, rd, 0x0f),
        Instruction::Ecall => 0x0000_0073,
        Instruction::Ebreak => 0x0010_0073,
        Instruction::Illegal => 0,
    }
}

// The word of an instruction. One with its fields in range is read back from it.
pub fn encode(instruction: Instruction) -> u32
    ensures word { result ≡ spec.encode instruction % 2 ^ 32 }
    ensures back { ReadBack instruction result }
{
    reads_back();
    encoded(instruction)
}
