// Instructions as they are written in a listing. The inner types derive no equality: nobody compares them.
ghost use Rattle.std.specs.Prelude.{◌≡◌, Some, codes, map, slice_index_or};
ghost use Rattle.instructions.specs.Listing.{name_of, operation_name, immediate_name, condition_name, load_name, store_name, order_name, written};

use crate::instruction::*;
use std::fmt;

const REGISTERS: [&str; 32] = [
    "zero", "ra", "sp", "gp", "tp", "t0", "t1", "t2", "s0", "s1", "a0", "a1", "a2", "a3", "a4",
    "a5", "a6", "a7", "s2", "s3", "s4", "s5", "s6", "s7", "s8", "s9", "s10", "s11", "t3", "t4",
    "t5", "t6",
];

// The sets of input, output, reads and writes, a bit for each.
const FENCE_SETS: [&str; 16] = [
    "0", "w", "r", "rw", "o", "ow", "or", "orw", "i", "iw", "ir", "irw", "io", "iow", "ior", "iorw",
];

// The text at a place in a table, and a question mark past its end.
fn entry(texts: &[&'static str], place: u8) -> &'static str
    ensures { result.now ≡ slice_index_or (map (λ text. text.now) texts.now) place (codes "?") }
{
    texts.get(place as usize).copied().unwrap_or("?")
}

// A register by its number.
#[derive(Clone, Copy)]
struct Register(u8);

impl fmt::Display for Register {
    ghost output = { λ r. Some (name_of r.0) };

    fn fmt<W: fmt::Write>(&self, f: &mut fmt::Formatter<W>) -> fmt::Result {
        f.write_str(entry(&REGISTERS, self.0))
    }
}

// What a fence orders, as a set of the four.
#[derive(Clone, Copy)]
struct FenceSet(u8);

impl fmt::Display for FenceSet {
    ghost output = { λ set. Some (order_name set.0) };

    fn fmt<W: fmt::Write>(&self, f: &mut fmt::Formatter<W>) -> fmt::Result {
        f.write_str(entry(&FENCE_SETS, self.0))
    }
}

impl fmt::Display for Operation {
    ghost output = { λ operation. Some (operation_name operation) };

    fn fmt<W: fmt::Write>(&self, f: &mut fmt::Formatter<W>) -> fmt::Result {
        f.write_str(match self {
            Operation::Add => "add",
            Operation::Sub => "sub",
            Operation::Sll => "sll",
            Operation::Slt => "slt",
            Operation::Sltu => "sltu",
            Operation::Xor => "xor",
            Operation::Srl => "srl",
            Operation::Sra => "sra",
            Operation::Or => "or",
            Operation::And => "and",
        })
    }
}

// An operation on a register and an immediate.
#[derive(Clone, Copy)]
struct Immediate(Operation);

impl fmt::Display for Immediate {
    ghost output = { λ operation. Some (immediate_name operation.0) };

    fn fmt<W: fmt::Write>(&self, f: &mut fmt::Formatter<W>) -> fmt::Result {
        match self.0 {
            Operation::Sltu => f.write_str("sltiu"),
            operation => write!(f, "{operation}i"),
        }
    }
}

impl fmt::Display for Condition {
    ghost output = { λ condition. Some (condition_name condition) };

    fn fmt<W: fmt::Write>(&self, f: &mut fmt::Formatter<W>) -> fmt::Result {
        f.write_str(match self {
            Condition::Eq => "beq",
            Condition::Ne => "bne",
            Condition::Lt => "blt",
            Condition::Ge => "bge",
            Condition::Ltu => "bltu",
            Condition::Geu => "bgeu",
        })
    }
}

impl fmt::Display for LoadWidth {
    ghost output = { λ width. Some (load_name width) };

    fn fmt<W: fmt::Write>(&self, f: &mut fmt::Formatter<W>) -> fmt::Result {
        f.write_str(match self {
            LoadWidth::Byte => "lb",
            LoadWidth::Half => "lh",
            LoadWidth::Word => "lw",
            LoadWidth::ByteUnsigned => "lbu",
            LoadWidth::HalfUnsigned => "lhu",
        })
    }
}

impl fmt::Display for StoreWidth {
    ghost output = { λ width. Some (store_name width) };

    fn fmt<W: fmt::Write>(&self, f: &mut fmt::Formatter<W>) -> fmt::Result {
        f.write_str(match self {
            StoreWidth::Byte => "sb",
            StoreWidth::Half => "sh",
            StoreWidth::Word => "sw",
        })
    }
}

impl fmt::Display for Instruction {
    ghost output = { λ i. Some (written i) };

    fn fmt<W: fmt::Write>(&self, f: &mut fmt::Formatter<W>) -> fmt::Result {
        match *self {
            Instruction::Lui(rd, imm) => write!(f, "lui {}, {}", Register(rd), imm >> 12),
            Instruction::Auipc(rd, imm) => write!(f, "auipc {}, {}", Register(rd), imm >> 12),
            Instruction::Jal(rd, offset) => write!(f, "jal {}, {offset}", Register(rd)),
            Instruction::Jalr(rd, rs1, offset) => {
                write!(f, "jalr {}, {offset}({})", Register(rd), Register(rs1))
            }
            Instruction::Branch(condition, rs1, rs2, offset) => {
                let (rs1, rs2) = (Register(rs1), Register(rs2));
                write!(f, "{condition} {rs1}, {rs2}, {offset}")
            }
            Instruction::Load(width, rd, rs1, offset) => {
                write!(f, "{width} {}, {offset}({})", Register(rd), Register(rs1))
            }
            Instruction::Store(width, rs1, rs2, offset) => {
                write!(f, "{width} {}, {offset}({})", Register(rs2), Register(rs1))
            }
            Instruction::OpImm(operation, rd, rs1, imm) => {
                let (operation, rd, rs1) = (Immediate(operation), Register(rd), Register(rs1));
                write!(f, "{operation} {rd}, {rs1}, {imm}")
            }
            Instruction::Op(operation, rd, rs1, rs2) => {
                let (rd, rs1, rs2) = (Register(rd), Register(rs1), Register(rs2));
                write!(f, "{operation} {rd}, {rs1}, {rs2}")
            }
            Instruction::Fence(_, pred, succ, _, _) => {
                write!(f, "fence {}, {}", FenceSet(pred), FenceSet(succ))
            }
            Instruction::Ecall => f.write_str("ecall"),
        }
    }
}
