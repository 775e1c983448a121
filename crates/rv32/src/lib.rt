// The core: what instructions do to the registers of a process and to its memory.
#![tactic(auto)]

mod compute;
mod cpu;
mod executing;
mod memory;
mod theorems;

pub use cpu::{Action, Cpu, Effect};
pub use executing::call_of;
pub use memory::{act, load, load_size, store, store_size};
pub use theorems::{programs_stand, steps_stand};
