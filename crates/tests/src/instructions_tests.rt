// Words of the public encodings, and what they are.
use instructions::{decode, encode};
use std::test::Fail;

// Each instruction, and each immediate at its least and its greatest value. Of a fence the last two have fields that mean nothing.
const INSTRUCTIONS: [(u32, &str); 53] = [
    (0x00001537, "lui a0, 1"),
    (0x00000fb7, "lui t6, 0"),
    (0xffffffb7, "lui t6, 1048575"),
    (0x00001197, "auipc gp, 1"),
    (0xfffff017, "auipc zero, 1048575"),
    (0x008000ef, "jal ra, 8"),
    (0x8000006f, "jal zero, -1048576"),
    (0x7fffffef, "jal t6, 1048574"),
    (0x00008067, "jalr zero, 0(ra)"),
    (0x800f82e7, "jalr t0, -2048(t6)"),
    (0x7ff88467, "jalr s0, 2047(a7)"),
    (0x02050863, "beq a0, zero, 48"),
    (0xfee79ee3, "bne a5, a4, -4"),
    (0x8124c063, "blt s1, s2, -4096"),
    (0x7f49dfe3, "bge s3, s4, 4094"),
    (0x01de60e3, "bltu t3, t4, 2048"),
    (0x01ff7f63, "bgeu t5, t6, 30"),
    (0x80010503, "lb a0, -2048(sp)"),
    (0x7ff11583, "lh a1, 2047(sp)"),
    (0x00c12083, "lw ra, 12(sp)"),
    (0x0013c303, "lbu t1, 1(t2)"),
    (0x002ddd03, "lhu s10, 2(s11)"),
    (0x80a10023, "sb a0, -2048(sp)"),
    (0x7eba9fa3, "sh a1, 2047(s5)"),
    (0x00112623, "sw ra, 12(sp)"),
    (0x00150513, "addi a0, a0, 1"),
    (0x80010113, "addi sp, sp, -2048"),
    (0x7ff00893, "addi a7, zero, 2047"),
    (0xfff6a613, "slti a2, a3, -1"),
    (0x00563693, "sltiu a3, a2, 5"),
    (0xfffbcb13, "xori s6, s7, -1"),
    (0x0ffcec13, "ori s8, s9, 255"),
    (0x00f1f213, "andi tp, gp, 15"),
    (0x00051513, "slli a0, a0, 0"),
    (0x01f79713, "slli a4, a5, 31"),
    (0x01f8d813, "srli a6, a7, 31"),
    (0x40355513, "srai a0, a0, 3"),
    (0x41ffd013, "srai zero, t6, 31"),
    (0x00c58533, "add a0, a1, a2"),
    (0x40b50533, "sub a0, a0, a1"),
    (0x007312b3, "sll t0, t1, t2"),
    (0x00f726b3, "slt a3, a4, a5"),
    (0x0124b433, "sltu s0, s1, s2"),
    (0x015a49b3, "xor s3, s4, s5"),
    (0x018bdb33, "srl s6, s7, s8"),
    (0x41bd5cb3, "sra s9, s10, s11"),
    (0x01eeee33, "or t3, t4, t5"),
    (0x0030ffb3, "and t6, ra, gp"),
    (0x00000073, "ecall"),
    (0x0ff0000f, "fence iorw, iorw"),
    (0x0330000f, "fence rw, rw"),
    (0x8330000f, "fence rw, rw"),
    (0xffff8f8f, "fence iorw, iorw"),
];

#[test]
fn words_decode(rt: HostRuntime) -> Result<(), Fail> {
    for (word, text) in INSTRUCTIONS.iter().copied() {
        let instruction = decode(word).ok_or(text)?;
        assert_eq!(rt; format!(in rt.alloc(); "{instruction}")?.as_str(), text);
        assert_eq!(rt; encode(instruction), Some(word), "{}", text);
    }
    Ok(())
}

// Neighbours of the encodings that are reserved, or belong to parts of the architecture that this core does not have.
const OTHERS: [(u32, &str); 27] = [
    (0x00000000, "all zeros"),
    (0xffffffff, "all ones"),
    (0x0000100f, "FENCE.I"),
    (0x00100073, "EBREAK"),
    (0x000000f3, "ECALL with an rd"),
    (0x30200073, "MRET"),
    (0x30001073, "CSRRW"),
    (0x00009067, "JALR with funct3 1"),
    (0x02052863, "a branch with funct3 2"),
    (0x02053863, "and 3"),
    (0x00013083, "LD"),
    (0x00016083, "LWU"),
    (0x00017083, "a load with funct3 7"),
    (0x00113023, "SD"),
    (0x00114023, "a store with funct3 4"),
    (0x02051513, "SLLI by 32"),
    (0x40051513, "SLLI with funct7 0x20"),
    (0x02055513, "SRLI by 32"),
    (0x42055513, "SRAI by 32"),
    (0x02b50533, "MUL"),
    (0x40b51533, "SLL with funct7 0x20"),
    (0x40b57533, "AND with it"),
    (0x20b50533, "ADD with funct7 0x10"),
    (0x0015051b, "ADDIW"),
    (0x1005252f, "LR.W"),
    (0x0015050b, "an opcode for custom use"),
    (0x00150512, "a compressed word"),
];

#[test]
fn other_words_are_wrong(rt: HostRuntime) {
    for (word, text) in OTHERS {
        assert!(rt; decode(word).is_none(), "{}", text);
    }
}
