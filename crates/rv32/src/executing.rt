// Instructions carried out on the registers of a process.
ghost use Rattle.std.specs.Prelude.{◌≡◌, ◌%◌, ◌<◌, if◌then◌else◌, Some, None, IfSome, nat_lt};
ghost use Rattle.turns.specs.Numbers.{call_number};
ghost use Rattle.instructions.specs.Decode.{Sound};
ghost use Rattle.rv32.specs.Execute.{reg_of, with_reg, stepped, finished, jumped, call_of, call_in, executed, performed, fresh, answered, Does};

use crate::compute::*;
use crate::cpu::*;
use instructions::{Instruction, decode};
use turns::vocabulary::Call;

// The call of a number and its arguments: the calling convention has numbers, and takes any of them, so that this is no TryFrom.
pub fn call_of(number: u32, a: u32, b: u32, c: u32) -> Call
    ensures value { result ≡ call_of number a b c }
    ensures number { call_number result ≡ (if nat_lt number 12 then Some number else None) }
{
    match number {
        0 => Call::Leave(a),
        1 => Call::Fork,
        2 => Call::Wait,
        3 => Call::Exec(a),
        4 => Call::Open(a),
        5 => Call::Close(a),
        6 => Call::Copy(a, b),
        7 => Call::Pipe(a),
        8 => Call::Read(a, b, c),
        9 => Call::Write(a, b, c),
        10 => Call::Save,
        11 => Call::End(a),
        _ => Call::Unknown,
    }
}

impl Cpu {
    // The registers of a process that begins with so many bytes of memory.
    pub fn start(memory: u32) -> Cpu
        ensures { result ≡ fresh memory }
    {
        let mut regs = [0; 32];
        regs[2] = memory;
        Cpu { regs, pc: 0 }
    }

    // Puts the value into rd and goes on to the next instruction: so a load ends.
    pub fn finish(&mut self, rd: u8, value: u32)
        requires register { rd < 32 }
        ensures { self.new ≡ finished self.old rd value }
    {
        self.write(rd, value);
        self.step();
    }

    // The process goes on with the answer of its call.
    pub fn answer(&mut self, value: u32)
        ensures { self.new ≡ answered self.old value }
    {
        self.finish(10, value);
    }

    // Carries a word out. It goes through the decoded instruction, so that one decoder serves the machine, the assembler and listings. The registers are changed
    // in place: none are kept aside for a wrong instruction, which has no effect, and after which nobody looks at them.
    pub fn execute(&mut self, word: u32) -> Option<Effect>
        ensures { Does (performed word self.old) result self.old self.new }
    {
        self.obey(decode(word)?)
    }

    fn read(&self, r: u8) -> u32
        requires register { r < 32 }
        ensures { result ≡ reg_of self.now r }
    {
        if r == 0 { 0 } else { self.regs[r as usize] }
    }

    fn write(&mut self, rd: u8, value: u32)
        requires register { rd < 32 }
        ensures { self.new ≡ with_reg self.old rd value }
    {
        if rd != 0 {
            self.regs[rd as usize] = value;
        }
    }

    fn step(&mut self)
        ensures { self.new ≡ stepped self.old }
    {
        self.pc = self.pc.wrapping_add(4);
    }

    fn jump(&mut self, rd: u8, target: u32) -> Option<Effect>
        requires register { rd < 32 }
        ensures { Does (jumped self.old rd target) result self.old self.new }
    {
        if target % 4 != 0 {
            return None;
        }
        let next = self.pc.wrapping_add(4);
        self.write(rd, next);
        self.pc = target;
        Some(Effect::Quiet)
    }

    // The call that the registers hold.
    fn call(&self) -> Call
        ensures { result ≡ call_in self.now }
    {
        call_of(self.read(17), self.read(10), self.read(11), self.read(12))
    }

    fn obey(&mut self, instruction: Instruction) -> Option<Effect>
        requires sound { Sound instruction }
        ensures { Does (executed instruction self.old) result self.old self.new }
    {
        match instruction {
            Instruction::Lui(rd, imm) => self.finish(rd, imm),
            Instruction::Auipc(rd, imm) => self.finish(rd, self.pc.wrapping_add(imm)),
            Instruction::Jal(rd, offset) => {
                let target = self.pc.wrapping_add_signed(offset);
                return self.jump(rd, target);
            }
            Instruction::Jalr(rd, rs1, offset) => {
                let target = self.read(rs1).wrapping_add_signed(offset);
                return self.jump(rd, target & 0xffff_fffe);
            }
            Instruction::Branch(condition, rs1, rs2, offset) => {
                if holds(condition, self.read(rs1), self.read(rs2)) {
                    return self.jump(0, self.pc.wrapping_add_signed(offset));
                }
                self.step();
            }
            Instruction::Load(width, rd, rs1, offset) => {
                let address = self.read(rs1).wrapping_add_signed(offset);
                return Some(Effect::Load { width, rd, address });
            }
            Instruction::Store(width, rs1, rs2, offset) => {
                let address = self.read(rs1).wrapping_add_signed(offset);
                let value = self.read(rs2);
                self.step();
                return Some(Effect::Store {
                    width,
                    address,
                    value,
                });
            }
            Instruction::OpImm(operation, rd, rs1, imm) => {
                let value = compute(operation, self.read(rs1), imm.cast_unsigned());
                self.finish(rd, value);
            }
            Instruction::Op(operation, rd, rs1, rs2) => {
                let value = compute(operation, self.read(rs1), self.read(rs2));
                self.finish(rd, value);
            }
            Instruction::Fence(..) => self.step(),
            Instruction::Ecall => return Some(Effect::Call(self.call())),
        }
        Some(Effect::Quiet)
    }
}
