// The instructions of RV32I of the RISC-V unprivileged specification, without control and status registers: decoded, encoded, and as they are written.
#![tactic(auto)]

mod codes;
mod decoding;
mod encoding;
mod fields;
mod instruction;
mod listing;

pub use decoding::decode;
pub use encoding::encode;
pub use instruction::{Condition, Illegal, Instruction, LoadWidth, Operation, StoreWidth};
