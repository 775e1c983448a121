// Whole frames: each is a part of the lent memory, lent on to be written.
ghost use Rattle.std.specs.Prelude.{◌≡◌, ℕ, ◌+◌, ◌*◌, ◌^◌, ◌<◌, ◌≤◌, length, replicate, slice_index};
ghost use Rattle.paging.specs.Frames.{ElseKept};

// Zeros in a part of memory.
fn clear(part: &mut [u8])
    ensures { part.new ≡ replicate (length part.old) 0 }
{
    part.fill(0);
}

// Zeros in frame `n`.
pub(crate) fn zero_frame(frames: &mut [u8], n: usize)
    requires small { n < 2 ^ 32 }
    requires within { n * 4096 + 4096 ≤ length frames.old }
    ensures here { (k : ℕ) → k < 4096 → slice_index frames.new (n * 4096 + k) ≡ 0 }
    ensures rest { ElseKept (n * 4096) (n * 4096 + 4096) frames.old frames.new }
{
    clear(&mut frames[n * 4096..n * 4096 + 4096]);
}

// Frame `from` is copied into frame `to`.
pub(crate) fn copy_frame(frames: &mut [u8], from: usize, to: usize)
    requires small { (from < 2 ^ 32) × (to < 2 ^ 32) }
    requires within { (from * 4096 + 4096 ≤ length frames.old) × (to * 4096 + 4096 ≤ length frames.old) }
    ensures here { (k : ℕ) → k < 4096 → slice_index frames.new (to * 4096 + k) ≡ slice_index frames.old (from * 4096 + k) }
    ensures rest { ElseKept (to * 4096) (to * 4096 + 4096) frames.old frames.new }
{
    frames.copy_within(from * 4096..from * 4096 + 4096, to * 4096);
}
