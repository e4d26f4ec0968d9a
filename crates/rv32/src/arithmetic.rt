// What OP and OP-IMM compute, and when a branch is taken.
ghost use Rattle.std.specs.Prelude.{◌≡◌};
ghost use Rattle.rv32.specs.Execute as spec;

use crate::forms::{Comparison, Operation};

pub fn computed(operation: Operation, a: u32, b: u32) -> u32
    ensures { result ≡ spec.result operation a b }
{
    match operation {
        Operation::Add => a.wrapping_add(b),
        Operation::Sub => a.wrapping_sub(b),
        Operation::Sll => a.wrapping_shl(b),
        Operation::Slt => u32::from(a.cast_signed() < b.cast_signed()),
        Operation::Sltu => u32::from(a < b),
        Operation::Xor => a ^ b,
        Operation::Srl => a.wrapping_shr(b),
        Operation::Sra => a.cast_signed().wrapping_shr(b).cast_unsigned(),
        Operation::Or => a | b,
        Operation::And => a & b,
    }
}

pub fn holds(when: Comparison, a: u32, b: u32) -> bool
    ensures { result ≡ spec.taken when a b }
{
    match when {
        Comparison::Eq => a == b,
        Comparison::Ne => a != b,
        Comparison::Lt => a.cast_signed() < b.cast_signed(),
        Comparison::Ge => a.cast_signed() >= b.cast_signed(),
        Comparison::Ltu => a < b,
        Comparison::Geu => a >= b,
    }
}
