use instructions::{LoadWidth, StoreWidth};
use turns::vocabulary::Call;

// The registers of a process. Register 0 is read as 0, whatever the array holds there. A register goes by a `u8` below 32, as in `Instruction`.
// An array, since there are 32 of them.
#[derive(Clone, Copy, Debug, PartialEq, Eq)]
pub struct Cpu {
    pub regs: [u32; 32],
    pub pc: u32,
}

// What is left to do of an instruction when the registers are done with: nothing; to read memory, and then to `finish` with the value for rd; to write
// memory; or to make a call, and then to `answer`.
#[derive(Clone, Copy, Debug, PartialEq, Eq)]
pub enum Effect {
    Quiet,
    Load {
        width: LoadWidth,
        rd: u8,
        address: u32,
    },
    Store {
        width: StoreWidth,
        address: u32,
        value: u32,
    },
    Call(Call),
}

// What an instruction does, seen from outside the core, when loads are done too. A store meets the memory.
#[derive(Clone, Copy, Debug, PartialEq, Eq)]
pub enum Action {
    Quiet,
    Store {
        width: StoreWidth,
        address: u32,
        value: u32,
    },
    Call(Call),
}
