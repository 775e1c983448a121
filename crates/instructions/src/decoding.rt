// From a word to the instruction that it is.
ghost use Rattle.std.specs.Prelude.{◌≡◌, IfOk, IfSome, Some};
ghost use Rattle.std.specs.Result.{result_ok};
ghost use Rattle.instructions.specs.Decode.{op_imm_of, decode_of, Sound};
ghost use Rattle.instructions.specs.Encode.{encode_of};

use crate::fields::*;
use crate::instruction::*;

// An operation with an immediate, by the codes of the one without. Only a shift has a funct7, and its amount stands in the place of rs2.
fn op_imm(word: u32) -> Result<Instruction, Illegal>
    ensures value { result_ok result ≡ op_imm_of word }
    ensures sound { IfOk result Sound }
{
    let (funct7, imm) = match funct3(word) {
        1 | 5 => (funct7(word), rs2(word) as i32),
        _ => (0, immediate_i(word)),
    };
    let operation = Operation::try_from((funct7, funct3(word)))?;
    Ok(Instruction::OpImm(operation, rd(word), rs1(word), imm))
}

// The match on the opcode, by the numbers of the specification: a form that this repository is to show, and an enum would be matched a second time.
fn by_opcode(word: u32) -> Result<Instruction, Illegal>
    ensures value { result_ok result ≡ decode_of word }
    ensures sound { IfOk result Sound }
{
    let (rd, rs1, rs2) = (rd(word), rs1(word), rs2(word));
    let instruction = match opcode(word) {
        0x37 => Instruction::Lui(rd, immediate_u(word)),
        0x17 => Instruction::Auipc(rd, immediate_u(word)),
        0x6f => Instruction::Jal(rd, immediate_j(word)),
        0x67 if funct3(word) == 0 => Instruction::Jalr(rd, rs1, immediate_i(word)),
        0x63 => {
            let condition = Condition::try_from(funct3(word))?;
            Instruction::Branch(condition, rs1, rs2, immediate_b(word))
        }
        0x03 => {
            let width = LoadWidth::try_from(funct3(word))?;
            Instruction::Load(width, rd, rs1, immediate_i(word))
        }
        0x23 => {
            let width = StoreWidth::try_from(funct3(word))?;
            Instruction::Store(width, rs1, rs2, immediate_s(word))
        }
        0x13 => op_imm(word)?,
        0x33 => {
            let operation = Operation::try_from((funct7(word), funct3(word)))?;
            Instruction::Op(operation, rd, rs1, rs2)
        }
        0x0f if funct3(word) == 0 => {
            let (fm, pred, succ) = orderings(word);
            Instruction::Fence(fm, pred, succ, rd, rs1)
        }
        0x73 if word == 0x73 => Instruction::Ecall,
        _ => return Err(Illegal),
    };
    Ok(instruction)
}

// The instruction that a word is, if it is one.
pub fn decode(word: u32) -> Option<Instruction>
    ensures value { result ≡ decode_of word }
    ensures sound { IfSome result Sound }
    ensures back { IfSome result (λ i. encode_of i ≡ Some word) }
{
    by_opcode(word).ok()
}
