// Frames are handed out and given back, one at a time.
ghost use Rattle.std.specs.Prelude.{◌≡◌, ◌+◌, ◌-◌, ◌<◌};
ghost use Rattle.paging.specs.Pages.{Sound, held, with_pages};
ghost use Rattle.paging.specs.Changes.{Kept, Others};

use crate::Paging;
use crate::slots::{free_frame, put_free, put_page};
use crate::tables::frame;

impl Paging {
    // The topmost free frame becomes the next page of process `p`. It holds whatever it held: whoever calls writes all of it.
    pub(crate) fn give_page(&mut self, frames: &mut [u8], p: usize)
        requires sound { Sound self.old frames.old }
        requires process { p < 64 }
        requires room { held self.old p < 256 }
        requires some { 0 < self.old.free }
        ensures state { self.new ≡ with_pages self.old p (held self.old p + 1) }
        ensures sound { Sound self.new frames.new }
        ensures kept { Kept self.old frames.old self.new frames.new }
    {
        let top = self.free - 1;
        let free = free_frame(frames, top as usize);
        let next = self.pages[p];
        put_page(frames, p, next as usize, free);
        self.free = top;
        self.pages[p] = next + 1;
    }

    // The last page of process `p` becomes a free frame.
    pub(crate) fn take_page(&mut self, frames: &mut [u8], p: usize)
        requires sound { Sound self.old frames.old }
        requires process { p < 64 }
        requires some { 0 < held self.old p }
        requires room { self.old.free < 16384 }
        ensures state { self.new ≡ with_pages self.old p (held self.old p - 1) }
        ensures sound { Sound self.new frames.new }
        ensures others { Others p self.old frames.old self.new frames.new }
    {
        let last = self.pages[p] - 1;
        let n = frame(frames, p, last as usize);
        put_free(frames, self.free as usize, n as u32);
        self.free += 1;
        self.pages[p] = last;
    }
}
