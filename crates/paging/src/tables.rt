// Walking the page tables: from a process and a page to its frame. The frames are lent at each call, so each function asks that they are long enough for the
// tables, and that the top tables stand.
ghost use Rattle.std.specs.Prelude.{◌≡◌, ◌+◌, ◌*◌, ◌/◌, ◌^◌, ◌<◌, ◌≤◌, length};
ghost use Rattle.paging.specs.Tables.{entry_of, frame_of, Tops};

use octets::Number;

// Entry `k` of table `t`.
pub(crate) fn entry(frames: &[u8], t: usize, k: usize) -> usize
    requires table { t < 1088 }
    requires slot { k < 16 }
    requires long { 327680 ≤ length frames.now }
    ensures value { result ≡ entry_of frames.now t k }
    ensures fits { result < 2 ^ 32 }
{
    u32::read(frames, t * 64 + k * 4) as usize
}

// The leaf table that holds the entry of page `i` of process `p`.
pub(crate) fn leaf(frames: &[u8], p: usize, i: usize) -> usize
    requires process { p < 64 }
    requires page { i < 256 }
    requires long { 327680 ≤ length frames.now }
    requires tops { Tops frames.now }
    ensures value { result ≡ entry_of frames.now p (i / 16) }
    ensures which { result ≡ 64 + p * 16 + i / 16 }
{
    entry(frames, p, i / 16)
}

// The frame of page `i` of process `p`.
pub(crate) fn frame(frames: &[u8], p: usize, i: usize) -> usize
    requires process { p < 64 }
    requires page { i < 256 }
    requires long { 327680 ≤ length frames.now }
    requires tops { Tops frames.now }
    ensures value { result ≡ frame_of frames.now p i }
    ensures fits { result < 2 ^ 32 }
{
    entry(frames, leaf(frames, p, i), i % 16)
}
