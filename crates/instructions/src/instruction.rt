// The instructions of RV32I without the control and status registers: 37 that compute, branch, load or store, and FENCE and ECALL. A register is a number
// below 32. An immediate is the number that it stands for: signed, and an offset counts bytes.

// What is done to two words; SLT and SLTU answer 1 or 0.
#[derive(Clone, Copy, Debug, PartialEq, Eq)]
pub enum Operation {
    Add,
    Sub,
    Sll,
    Slt,
    Sltu,
    Xor,
    Srl,
    Sra,
    Or,
    And,
}

// When a branch is taken; the last two compare unsigned.
#[derive(Clone, Copy, Debug, PartialEq, Eq)]
pub enum Condition {
    Eq,
    Ne,
    Lt,
    Ge,
    Ltu,
    Geu,
}

// What is loaded; a byte and a half are extended to a word by their sign, the unsigned ones by zeros.
#[derive(Clone, Copy, Debug, PartialEq, Eq)]
pub enum LoadWidth {
    Byte,
    Half,
    Word,
    ByteUnsigned,
    HalfUnsigned,
}

// What is stored: the low 8, 16 or all 32 bits.
#[derive(Clone, Copy, Debug, PartialEq, Eq)]
pub enum StoreWidth {
    Byte,
    Half,
    Word,
}

// The parts of an instruction stand in this order: what it does, rd, rs1, rs2, the immediate. A register is a `u8`, and not a type of the 32, since `encode`
// takes any number and answers None for one that is no register.
#[derive(Clone, Copy, Debug, PartialEq, Eq)]
pub enum Instruction {
    // rd, and the word whose upper 20 bits the instruction holds; its 12 low bits are 0
    Lui(u8, u32),
    Auipc(u8, u32),
    // rd, and the offset from the instruction's own address
    Jal(u8, i32),
    // rd, rs1, and the offset from what rs1 holds
    Jalr(u8, u8, i32),
    // rs1, rs2, and the offset from the instruction's own address
    Branch(Condition, u8, u8, i32),
    // rd, rs1, and the offset from what rs1 holds
    Load(LoadWidth, u8, u8, i32),
    // rs1, rs2, and the offset from what rs1 holds
    Store(StoreWidth, u8, u8, i32),
    // rd, rs1 and the immediate
    OpImm(Operation, u8, u8, i32),
    // rd, rs1, rs2
    Op(Operation, u8, u8, u8),
    // the mode, the predecessors and the successors (four bits each), rd, rs1; whatever they hold, nothing is done
    Fence(u8, u8, u8, u8, u8),
    Ecall,
}

// A word, or a code in it, that stands for nothing here.
#[derive(Clone, Copy, Debug, PartialEq, Eq)]
pub struct Illegal;
