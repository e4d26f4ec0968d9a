// The instructions of RV32I, with their fields.
ghost use Rattle.std.specs.Prelude.{◌≡◌};
ghost use Rattle.rv32.specs.Execute as spec;

// What OP and OP-IMM compute.
#[derive(Clone, Copy, Debug, PartialEq, Eq)]
pub enum Operation {
    Add,
    Sub,
    Sll,
    Slt,
    Sltu,
    Xor,
    Srl,
    Sra,
    Or,
    And,
}

// When a branch is taken.
#[derive(Clone, Copy, Debug, PartialEq, Eq)]
pub enum Comparison {
    Eq,
    Ne,
    Lt,
    Ge,
    Ltu,
    Geu,
}

// What a load reads, and how it is extended.
#[derive(Clone, Copy, Debug, PartialEq, Eq)]
pub enum Loading {
    Lb,
    Lh,
    Lw,
    Lbu,
    Lhu,
}

// How much a store writes.
#[derive(Clone, Copy, Debug, PartialEq, Eq)]
pub enum Width {
    Byte,
    Half,
    Word,
}

impl Width {
    // How many bytes.
    pub fn size(self) -> u32
        ensures { result ≡ spec.size self }
    {
        match self {
            Width::Byte => 1,
            Width::Half => 2,
            Width::Word => 4,
        }
    }
}

// FENCE has its fields fm, pred and succ as one number of 12 bits.
#[derive(Clone, Copy, Debug, PartialEq, Eq)]
pub enum Instruction {
    Lui {
        rd: u8,
        immediate: i32,
    },
    Auipc {
        rd: u8,
        immediate: i32,
    },
    Jal {
        rd: u8,
        offset: i32,
    },
    Jalr {
        rd: u8,
        rs1: u8,
        offset: i32,
    },
    Branch {
        when: Comparison,
        rs1: u8,
        rs2: u8,
        offset: i32,
    },
    Load {
        what: Loading,
        rd: u8,
        rs1: u8,
        offset: i32,
    },
    Store {
        width: Width,
        rs1: u8,
        rs2: u8,
        offset: i32,
    },
    OpImm {
        operation: Operation,
        rd: u8,
        rs1: u8,
        immediate: i32,
    },
    Op {
        operation: Operation,
        rd: u8,
        rs1: u8,
        rs2: u8,
    },
    Fence {
        rd: u8,
        rs1: u8,
        ordering: u16,
    },
    Ecall,
    Ebreak,
    Illegal,
}
