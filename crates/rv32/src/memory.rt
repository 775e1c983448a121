// Instructions in a memory that is a row of bytes.
ghost use Rattle.std.specs.Prelude.{◌≡◌, ◌+◌, ◌%◌, ◌<◌, ◌≤◌, true, false, MatchOption, IfSome, length};
ghost use Rattle.octets.specs.Rows.{over};
ghost use Rattle.rv32.specs.Act.{load_size, loaded, store_size, stored, meets, core, shown, Rests, Meets};

use crate::cpu::*;
use instructions::{LoadWidth, StoreWidth};
use octets::Number;

// How many bytes are loaded. (It and `store_size` are no twins to be one: the widths are enums with different members, and a trait would keep both matches.)
pub fn load_size(width: LoadWidth) -> u32
    ensures value { result ≡ load_size width }
    ensures few { (0 < result) × (result ≤ 4) }
{
    match width {
        LoadWidth::Byte | LoadWidth::ByteUnsigned => 1,
        LoadWidth::Half | LoadWidth::HalfUnsigned => 2,
        LoadWidth::Word => 4,
    }
}

// How many bytes are stored.
pub fn store_size(width: StoreWidth) -> u32
    ensures value { result ≡ store_size width }
    ensures few { (0 < result) × (result ≤ 4) }
{
    match width {
        StoreWidth::Byte => 1,
        StoreWidth::Half => 2,
        StoreWidth::Word => 4,
    }
}

// The word that a load takes from a place of a row of bytes.
pub fn load(bytes: &[u8], width: LoadWidth, at: usize) -> u32
    requires within { at + load_size width ≤ length bytes.now }
    ensures { result ≡ loaded width bytes.now at }
{
    match width {
        LoadWidth::Byte => (bytes[at].cast_signed() as i32).cast_unsigned(),
        LoadWidth::Half => (u16::read(bytes, at).cast_signed() as i32).cast_unsigned(),
        LoadWidth::Word => u32::read(bytes, at),
        LoadWidth::ByteUnsigned => bytes[at] as u32,
        LoadWidth::HalfUnsigned => u16::read(bytes, at) as u32,
    }
}

// The low bytes of a value are put at a place of a row of bytes; all other bytes stay.
pub fn store(bytes: &mut [u8], width: StoreWidth, at: usize, value: u32)
    requires within { at + store_size width ≤ length bytes.old }
    ensures { bytes.new ≡ over bytes.old at (stored width value) }
{
    match width {
        StoreWidth::Byte => ((value % 256) as u8).write(bytes, at),
        StoreWidth::Half => ((value % 65_536) as u16).write(bytes, at),
        StoreWidth::Word => value.write(bytes, at),
    }
}

// Where so many bytes at an address lie, if they meet the memory.
fn place(memory: &[u8], address: u32, size: u32) -> Option<usize>
    requires { (0 < size) × (size ≤ 4) }
    ensures meets { MatchOption result (meets (length memory.now) address size ≡ false) (λ at. (meets (length memory.now) address size ≡ true) × (at ≡ address)) }
    ensures inside { IfSome result (λ at. (address % size ≡ 0) × (at + size ≤ length memory.now)) }
{
    let end = address as usize + size as usize;
    if address % size == 0 && end <= memory.len() {
        Some(address as usize)
    } else {
        None
    }
}

// The instruction at hand, but for the bytes of a store and the answer of a call; none if it is wrong, and then nobody looks at the registers again.
pub fn act(cpu: &mut Cpu, memory: &[u8]) -> Option<Action>
    ensures value { shown result cpu.new ≡ core.act cpu.old memory.now }
    ensures waits { IfSome result (λ action. Rests action cpu.old cpu.new) }
    ensures meets { IfSome result (λ action. Meets action (length memory.now)) }
{
    let at = place(memory, cpu.pc, 4)?;
    match cpu.execute(u32::read(memory, at))? {
        Effect::Quiet => Some(Action::Quiet),
        Effect::Load { width, rd, address } => {
            let at = place(memory, address, load_size(width))?;
            cpu.finish(rd, load(memory, width, at));
            Some(Action::Quiet)
        }
        Effect::Store {
            width,
            address,
            value,
        } => {
            place(memory, address, store_size(width))?;
            Some(Action::Store {
                width,
                address,
                value,
            })
        }
        Effect::Call(call) => Some(Action::Call(call)),
    }
}
