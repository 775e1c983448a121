// From an instruction to its word.
ghost use Rattle.std.specs.Prelude.{◌≡◌, ◌+◌, ◌*◌, ◌<◌, true, pos};
ghost use Rattle.instructions.specs.Decode.{Sound};
ghost use Rattle.instructions.specs.Encode.{even, immediate_fits, formed, short};
ghost use Rattle.instructions.specs.Encode.{packed, packed_i, packed_s, packed_b, packed_j, encoded, encode_of, Inverse};

use crate::fields::{bits, immediate_u, join};
use crate::instruction::*;

// A number of 12 bits in two's complement.
fn is_short(value: i32) -> bool
    ensures { result ≡ short value }
{
    (-2048..2048).contains(&value)
}

fn is_even(offset: i32) -> bool
    ensures { result ≡ even offset }
{
    offset.cast_unsigned() % 2 == 0
}

fn immediate_fits(operation: Operation, imm: i32) -> bool
    ensures { result ≡ immediate_fits operation imm }
{
    match operation {
        Operation::Sub => false,
        Operation::Sll | Operation::Srl | Operation::Sra => (0..32).contains(&imm),
        _ => is_short(imm),
    }
}

// There are 32 registers, and each number fits its field.
fn is_formed(instruction: Instruction) -> bool
    ensures value { result ≡ formed instruction }
    ensures sound { result ≡ true → Sound instruction }
{
    match instruction {
        Instruction::Lui(rd, imm) | Instruction::Auipc(rd, imm) => rd < 32 && imm % 4096 == 0,
        Instruction::Jal(rd, offset) => rd < 32
            && (-1_048_576..1_048_576).contains(&offset)
            && is_even(offset),
        Instruction::Jalr(rd, rs1, offset) => rd < 32 && rs1 < 32 && is_short(offset),
        Instruction::Branch(_, rs1, rs2, offset) => rs1 < 32
            && rs2 < 32
            && (-4096..4096).contains(&offset)
            && is_even(offset),
        Instruction::Load(_, rd, rs1, offset) => rd < 32 && rs1 < 32 && is_short(offset),
        Instruction::Store(_, rs1, rs2, offset) => rs1 < 32 && rs2 < 32 && is_short(offset),
        Instruction::OpImm(operation, rd, rs1, imm) => rd < 32
            && rs1 < 32
            && immediate_fits(operation, imm),
        Instruction::Op(_, rd, rs1, rs2) => rd < 32 && rs1 < 32 && rs2 < 32,
        Instruction::Fence(fm, pred, succ, rd, rs1) => fm < 16
            && pred < 16
            && succ < 16
            && rd < 32
            && rs1 < 32,
        Instruction::Ecall => true,
    }
}

// The fields in their places; only here do the six go together.
fn pack(funct7: u32, rs2: u8, rs1: u8, funct3: u32, rd: u8, opcode: u32) -> u32
    requires funct7_bound { (funct7 < 128) × ((rs2 < 32) × (rs1 < 32)) }
    requires funct3_bound { (funct3 < 8) × ((rd < 32) × (opcode < 128)) }
    ensures { result ≡ packed funct7 rs2 rs1 funct3 rd opcode }
{
    let word = join(funct7, rs2 as u32, 5);
    let word = join(word, rs1 as u32, 5);
    let word = join(word, funct3, 3);
    let word = join(word, rd as u32, 5);
    join(word, opcode, 7)
}

// An immediate in its places, which each format has of its own; the other fields are 0.
fn place_i(imm: i32) -> u32
    ensures { result ≡ packed_i imm 0 0 0 0 }
{
    imm.cast_unsigned() << 20
}

fn place_s(imm: i32) -> u32
    ensures { result ≡ packed_s imm 0 0 0 0 }
{
    let imm = imm.cast_unsigned();
    join(bits(imm, 5, 7), bits(imm, 0, 5) << 7, 25)
}

fn place_b(imm: i32) -> u32
    ensures { result ≡ packed_b imm 0 0 0 0 }
{
    let imm = imm.cast_unsigned();
    let high = join(bits(imm, 12, 1), bits(imm, 5, 6), 6);
    let low = join(bits(imm, 1, 4), bits(imm, 11, 1), 1);
    join(high, low << 7, 25)
}

fn place_j(imm: i32) -> u32
    ensures { result ≡ packed_j imm 0 0 }
{
    let imm = imm.cast_unsigned();
    let high = join(bits(imm, 20, 1), bits(imm, 1, 10), 10);
    let high = join(high, bits(imm, 11, 1), 1);
    join(high, bits(imm, 12, 8), 8) << 12
}

fn pack_op_imm(operation: Operation, rd: u8, rs1: u8, imm: i32) -> u32
    requires { (rd < 32) × (rs1 < 32) }
    ensures { result ≡ encoded (Instruction.OpImm operation rd rs1 imm) }
{
    let (funct7, funct3) = operation.into();
    match operation {
        Operation::Sll | Operation::Srl | Operation::Sra => {
            let amount = bits(imm.cast_unsigned(), 0, 5) as u8;
            pack(funct7, amount, rs1, funct3, rd, 0x13)
        }
        _ => place_i(imm) + pack(0, 0, rs1, funct3, rd, 0x13),
    }
}

// The three fields of four bits that only FENCE has, in the place of an immediate.
fn place_orderings(fm: u8, pred: u8, succ: u8) -> u32
    requires { (fm < 16) × ((pred < 16) × (succ < 16)) }
    ensures { result ≡ packed_i (pos (fm * 256 + pred * 16 + succ)) 0 0 0 0 }
{
    join(join(fm as u32, pred as u32, 4), succ as u32, 4) << 20
}

// The fields of a word don't overlap, so the immediate and the others are added. The opcodes are the numbers of the specification, as in decoding.
fn word_of(instruction: Instruction) -> u32
    requires sound { Sound instruction }
    ensures { result ≡ encoded instruction }
{
    match instruction {
        Instruction::Lui(rd, imm) => immediate_u(imm) + pack(0, 0, 0, 0, rd, 0x37),
        Instruction::Auipc(rd, imm) => immediate_u(imm) + pack(0, 0, 0, 0, rd, 0x17),
        Instruction::Jal(rd, offset) => place_j(offset) + pack(0, 0, 0, 0, rd, 0x6f),
        Instruction::Jalr(rd, rs1, offset) => place_i(offset) + pack(0, 0, rs1, 0, rd, 0x67),
        Instruction::Branch(condition, rs1, rs2, offset) => {
            place_b(offset) + pack(0, rs2, rs1, condition.into(), 0, 0x63)
        }
        Instruction::Load(width, rd, rs1, offset) => {
            place_i(offset) + pack(0, 0, rs1, width.into(), rd, 0x03)
        }
        Instruction::Store(width, rs1, rs2, offset) => {
            place_s(offset) + pack(0, rs2, rs1, width.into(), 0, 0x23)
        }
        Instruction::OpImm(operation, rd, rs1, imm) => pack_op_imm(operation, rd, rs1, imm),
        Instruction::Op(operation, rd, rs1, rs2) => {
            let (funct7, funct3) = operation.into();
            pack(funct7, rs2, rs1, funct3, rd, 0x33)
        }
        Instruction::Fence(fm, pred, succ, rd, rs1) => {
            place_orderings(fm, pred, succ) + pack(0, 0, rs1, 0, rd, 0x0f)
        }
        Instruction::Ecall => 0x73,
    }
}

// The word of an instruction, unless it is not well-formed.
pub fn encode(instruction: Instruction) -> Option<u32>
    ensures value { result ≡ encode_of instruction }
    ensures inverse { Inverse result instruction }
{
    if !is_formed(instruction) {
        return None;
    }
    Some(word_of(instruction))
}
