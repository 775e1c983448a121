// A page is overwritten whole.
ghost use Rattle.std.specs.Prelude.{◌<◌};
ghost use Rattle.paging.specs.Tables.{byte_of};
ghost use Rattle.paging.specs.Pages.{Sound, held};
ghost use Rattle.paging.specs.Changes.{Filled};

use crate::Paging;
use crate::frames::{copy_frame, zero_frame};
use crate::tables::frame;

impl Paging {
    // Zeros in page `i` of process `p`.
    pub(crate) fn zero_page(&self, frames: &mut [u8], p: usize, i: usize)
        requires sound { Sound self.now frames.old }
        requires process { p < 64 }
        requires page { i < held self.now p }
        ensures sound { Sound self.now frames.new }
        ensures filled { Filled self.now frames.old frames.new p i (λ _. 0) }
    {
        let n = frame(frames, p, i);
        zero_frame(frames, n);
    }

    // Page `i` of process `from` is copied into page `i` of process `to`.
    pub(crate) fn copy_page(&self, frames: &mut [u8], from: usize, to: usize, i: usize)
        requires sound { Sound self.now frames.old }
        requires processes { (from < 64) × (to < 64) }
        requires pages { (i < held self.now from) × (i < held self.now to) }
        ensures sound { Sound self.now frames.new }
        ensures filled { Filled self.now frames.old frames.new to i (byte_of frames.old from) }
    {
        let source = frame(frames, from, i);
        let target = frame(frames, to, i);
        copy_frame(frames, source, target);
    }
}
