// Lines of a program by their mnemonics. Programs are written as tables, so lines are data.
ghost use Rattle.std.specs.Prelude.{◌≡◌, IfOk};
ghost use Rattle.std.specs.List.{flat_map};
ghost use Rattle.assembler.specs.Lines as spec;

use crate::encoding::encode;
use rv32::{Comparison, Instruction, Loading, Operation, Width};
use std::alloc::{AllocError, Global};

// An instruction with its registers in the order of the specification's assembler. Branches and jumps
// name the line that they go to by its distance: -1 is the line before, 1 the next.
#[derive(Clone, Copy, Debug, PartialEq, Eq)]
pub enum Line {
    // rd, immediate
    Li(u8, i16),
    Lui(u8, i32),
    // rd, rs1, immediate
    Addi(u8, u8, i16),
    Andi(u8, u8, i16),
    Slli(u8, u8, i16),
    Srli(u8, u8, i16),
    Jalr(u8, u8, i16),
    // rd, rs1, rs2
    Add(u8, u8, u8),
    Sub(u8, u8, u8),
    // rd, offset, rs1
    Lw(u8, i16, u8),
    Lb(u8, i16, u8),
    Lbu(u8, i16, u8),
    // rs2, offset, rs1
    Sw(u8, i16, u8),
    Sh(u8, i16, u8),
    Sb(u8, i16, u8),
    // rs1, rs2, distance
    Beq(u8, u8, i8),
    Bne(u8, u8, i8),
    Blt(u8, u8, i8),
    Bge(u8, u8, i8),
    // rd, distance
    Jal(u8, i8),
    Ecall,
    Ebreak,
    // no instruction, but four bytes of data
    Word(u32),
}

// An operation with an immediate.
fn immediate(operation: Operation, rd: u8, rs1: u8, value: i16) -> u32
    ensures { result ≡ spec.immediate operation rd rs1 value }
{
    encode(Instruction::OpImm {
        operation,
        rd,
        rs1,
        immediate: value.into(),
    })
}

fn operation(operation: Operation, rd: u8, rs1: u8, rs2: u8) -> u32
    ensures { result ≡ spec.operation operation rd rs1 rs2 }
{
    encode(Instruction::Op {
        operation,
        rd,
        rs1,
        rs2,
    })
}

fn load(what: Loading, rd: u8, offset: i16, rs1: u8) -> u32
    ensures { result ≡ spec.load what rd offset rs1 }
{
    encode(Instruction::Load {
        what,
        rd,
        rs1,
        offset: offset.into(),
    })
}

fn store(width: Width, rs2: u8, offset: i16, rs1: u8) -> u32
    ensures { result ≡ spec.store width rs2 offset rs1 }
{
    encode(Instruction::Store {
        width,
        rs1,
        rs2,
        offset: offset.into(),
    })
}

// How many bytes so many lines are apart.
#[tactic(auto, unfolding(crate::specs::Lines::apart))]
fn apart(distance: i8) -> i32
    ensures { result ≡ spec.apart distance }
{
    4 * i32::from(distance)
}

// A branch by so many lines.
fn branch(when: Comparison, rs1: u8, rs2: u8, distance: i8) -> u32
    ensures { result ≡ spec.branch when rs1 rs2 distance }
{
    encode(Instruction::Branch {
        when,
        rs1,
        rs2,
        offset: apart(distance),
    })
}

impl Line {
    // The word of a line.
    fn word(self) -> u32
        ensures { result ≡ spec.word self }
    {
        match self {
            Line::Li(rd, value) => immediate(Operation::Add, rd, 0, value),
            Line::Lui(rd, immediate) => encode(Instruction::Lui { rd, immediate }),
            Line::Addi(rd, rs1, value) => immediate(Operation::Add, rd, rs1, value),
            Line::Andi(rd, rs1, value) => immediate(Operation::And, rd, rs1, value),
            Line::Slli(rd, rs1, value) => immediate(Operation::Sll, rd, rs1, value),
            Line::Srli(rd, rs1, value) => immediate(Operation::Srl, rd, rs1, value),
            Line::Jalr(rd, rs1, offset) => encode(Instruction::Jalr {
                rd,
                rs1,
                offset: offset.into(),
            }),
            Line::Add(rd, rs1, rs2) => operation(Operation::Add, rd, rs1, rs2),
            Line::Sub(rd, rs1, rs2) => operation(Operation::Sub, rd, rs1, rs2),
            Line::Lw(rd, offset, rs1) => load(Loading::Lw, rd, offset, rs1),
            Line::Lb(rd, offset, rs1) => load(Loading::Lb, rd, offset, rs1),
            Line::Lbu(rd, offset, rs1) => load(Loading::Lbu, rd, offset, rs1),
            Line::Sw(rs2, offset, rs1) => store(Width::Word, rs2, offset, rs1),
            Line::Sh(rs2, offset, rs1) => store(Width::Half, rs2, offset, rs1),
            Line::Sb(rs2, offset, rs1) => store(Width::Byte, rs2, offset, rs1),
            Line::Beq(rs1, rs2, distance) => branch(Comparison::Eq, rs1, rs2, distance),
            Line::Bne(rs1, rs2, distance) => branch(Comparison::Ne, rs1, rs2, distance),
            Line::Blt(rs1, rs2, distance) => branch(Comparison::Lt, rs1, rs2, distance),
            Line::Bge(rs1, rs2, distance) => branch(Comparison::Ge, rs1, rs2, distance),
            Line::Jal(rd, distance) => encode(Instruction::Jal {
                rd,
                offset: apart(distance),
            }),
            Line::Ecall => encode(Instruction::Ecall),
            Line::Ebreak => encode(Instruction::Ebreak),
            Line::Word(word) => word,
        }
    }
}

// The bytes of a program, line by line, low bytes first.
pub fn assemble(heap: Global, lines: &[Line]) -> Result<Vec<u8>, AllocError>
    ensures { IfOk result (λ bytes. bytes.items ≡ flat_map spec.bytes lines.now) }
{
    let mut bytes = Vec::new(heap);
    for line in lines {
        bytes.extend_from_slice(&line.word().to_le_bytes())?;
    }
    Ok(bytes)
}
