// What the instruction at hand does.
ghost use Rattle.std.specs.Prelude.{◌≡◌, ◌*◌, ◌/◌};
ghost use Rattle.rv32.specs.Execute as spec;

use crate::arithmetic::{computed, holds};
use crate::decoding::decode;
use crate::forms::{Comparison, Instruction, Width};
use crate::loads::{Memory, loaded};
use crate::registers::Cpu;
use rights::{Answer, Call};

// What an instruction asks for. `Cpu` has the functions that carry it out.
#[derive(Clone, Copy, Debug, PartialEq, Eq)]
pub enum Step {
    // A register gets a value, and the next instruction is at a pc: go_on.
    Next {
        register: u8,
        value: u32,
        pc: u32,
    },
    // The low bytes of a value go to an address; then advance.
    Store {
        address: u32,
        width: Width,
        value: u32,
    },
    // A call of the kernel; with its answer, resume.
    Call(Call),
    // The thread stops.
    Stop,
}

// The lowest bit set to 0.
fn even(address: u32) -> u32
    ensures { result ≡ address / 2 * 2 }
{
    address & !1
}

// rd gets a value, and the next instruction is the one after.
fn write(cpu: &Cpu, rd: u8, value: u32) -> Step
    ensures { spec.told cpu.now result ≡ spec.write cpu.now rd value }
{
    Step::Next {
        register: rd,
        value,
        pc: cpu.pc.wrapping_add(4),
    }
}

fn jump(cpu: &Cpu, rd: u8, target: u32) -> Step
    ensures { spec.told cpu.now result ≡ spec.jump cpu.now rd target }
{
    if target % 4 != 0 {
        return Step::Stop;
    }
    Step::Next {
        register: rd,
        value: cpu.pc.wrapping_add(4),
        pc: target,
    }
}

// A branch that is taken is a jump without a link.
fn branch(cpu: &Cpu, when: Comparison, rs1: u8, rs2: u8, offset: i32) -> Step
    ensures { spec.told cpu.now result ≡ spec.branch cpu.now when rs1 rs2 offset }
{
    if holds(when, cpu.get(rs1), cpu.get(rs2)) {
        jump(cpu, 0, cpu.pc.wrapping_add(offset.cast_unsigned()))
    } else {
        write(cpu, 0, 0)
    }
}

fn store(cpu: &Cpu, width: Width, rs2: u8, address: u32) -> Step
    ensures { spec.told cpu.now result ≡ spec.store cpu.now width rs2 address }
{
    if address % width.size() != 0 {
        return Step::Stop;
    }
    Step::Store {
        address,
        width,
        value: cpu.get(rs2),
    }
}

// A call, or no where there is none such.
fn ecall(cpu: &Cpu) -> Step
    ensures { spec.told cpu.now result ≡ spec.ecall cpu.now }
{
    // One by one: with `map` over the six numbers (tried), the proof of this function did not close.
    let arguments = [
        cpu.get(10),
        cpu.get(11),
        cpu.get(12),
        cpu.get(13),
        cpu.get(14),
        cpu.get(15),
    ];
    match Call::decode(cpu.get(17), arguments) {
        Some(call) => Step::Call(call),
        None => write(cpu, 10, Answer::NO),
    }
}

fn execute<M: Memory>(cpu: &Cpu, memory: &M, instruction: Instruction) -> Step
    ensures { spec.told cpu.now result ≡ spec.execute cpu.now (M.seen memory.now) instruction }
{
    match instruction {
        Instruction::Lui { rd, immediate } => write(cpu, rd, immediate.cast_unsigned()),
        Instruction::Auipc { rd, immediate } => write(
            cpu,
            rd,
            cpu.pc.wrapping_add(immediate.cast_unsigned()),
        ),
        Instruction::Jal { rd, offset } => jump(
            cpu,
            rd,
            cpu.pc.wrapping_add(offset.cast_unsigned()),
        ),
        Instruction::Jalr { rd, rs1, offset } => jump(
            cpu,
            rd,
            even(cpu.get(rs1).wrapping_add(offset.cast_unsigned())),
        ),
        Instruction::Branch {
            when,
            rs1,
            rs2,
            offset,
        } => branch(cpu, when, rs1, rs2, offset),
        Instruction::Load {
            what,
            rd,
            rs1,
            offset,
        } => match loaded(
            memory,
            what,
            cpu.get(rs1).wrapping_add(offset.cast_unsigned()),
        ) {
            Some(value) => write(cpu, rd, value),
            None => Step::Stop,
        },
        Instruction::Store {
            width,
            rs1,
            rs2,
            offset,
        } => store(
            cpu,
            width,
            rs2,
            cpu.get(rs1).wrapping_add(offset.cast_unsigned()),
        ),
        Instruction::OpImm {
            operation,
            rd,
            rs1,
            immediate,
        } => write(
            cpu,
            rd,
            computed(operation, cpu.get(rs1), immediate.cast_unsigned()),
        ),
        Instruction::Op {
            operation,
            rd,
            rs1,
            rs2,
        } => write(cpu, rd, computed(operation, cpu.get(rs1), cpu.get(rs2))),
        Instruction::Fence { .. } => write(cpu, 0, 0),
        Instruction::Ecall => ecall(cpu),
        Instruction::Ebreak | Instruction::Illegal => Step::Stop,
    }
}

// The instruction at the pc.
pub fn act<M: Memory>(cpu: &Cpu, memory: &M) -> Step
    ensures { spec.told cpu.now result ≡ spec.act cpu.now (M.seen memory.now) }
{
    let Some(word) = memory.word(cpu.pc) else {
        return Step::Stop;
    };
    execute(cpu, memory, decode(word))
}
