// Writing the numbers of frames: into page tables, and onto the stack of free frames.
ghost use Rattle.std.specs.Prelude.{◌≡◌, ◌<◌, ◌≤◌, length};
ghost use Rattle.paging.specs.Tables.{free_at, Tops, Slotted};
ghost use Rattle.paging.specs.Tables.Slot.{page, free};

use crate::tables::leaf;
use octets::Number;

// The stack of free frames lies behind the tables.
pub(crate) const STACK: usize = 69_632;

// Each top table leads to the 16 leaf tables of its process.
pub(crate) fn make_tops(frames: &mut [u8])
    requires long { 327680 ≤ length frames.old }
    ensures { Tops frames.new }
{
    for n in 0..1024 {
        (64 + n as u32).write(frames, n * 4);
    }
}

// The frame whose number lies at height `k` of the stack.
pub(crate) fn free_frame(frames: &[u8], k: usize) -> u32
    requires stack { k < 16384 }
    requires long { 327680 ≤ length frames.now }
    ensures { result ≡ free_at frames.now k }
{
    u32::read(frames, STACK + k * 4)
}

// Frame `n` is put on the stack at height `k`.
pub(crate) fn put_free(frames: &mut [u8], k: usize, n: u32)
    requires stack { k < 16384 }
    requires long { 327680 ≤ length frames.old }
    requires tops { Tops frames.old }
    ensures { Slotted frames.old frames.new (free k) n }
{
    n.write(frames, STACK + k * 4);
}

// Page `i` of process `p` gets frame `n`.
pub(crate) fn put_page(frames: &mut [u8], p: usize, i: usize, n: u32)
    requires process { p < 64 }
    requires page { i < 256 }
    requires long { 327680 ≤ length frames.old }
    requires tops { Tops frames.old }
    ensures { Slotted frames.old frames.new (page p i) n }
{
    let table = leaf(frames, p, i);
    n.write(frames, table * 64 + i % 16 * 4);
}
