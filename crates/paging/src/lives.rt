// Processes begin, with zeros or as a copy of another, and end.
ghost use Rattle.std.specs.Prelude.{◌≡◌, ℕ, ◌+◌, ◌*◌, ◌/◌, ◌%◌, ◌<◌, ◌≤◌, length, ◌≢◌};
ghost use Rattle.paging.specs.Tables.{byte_of};
ghost use Rattle.paging.specs.Pages.{Sound, Enough, held};
ghost use Rattle.paging.specs.Changes.{Begun, Ended};

use crate::Paging;
use crate::slots::{make_tops, put_free};
use turns::vocabulary::Sizes;

impl Paging {
    // No process has a page, and `total` frames are free.
    fn all_free(total: u32) -> Paging
        ensures free { result.free ≡ total }
        ensures rows { length result.pages ≡ 64 }
        ensures none { (p : ℕ) → held result p ≡ 0 }
    {
        Paging {
            free: total,
            pages: [0; 64],
        }
    }

    // Sets up tables in lent memory, whatever it holds: no process has a page, and as many frames are free as all processes may have pages.
    pub fn set_up(sizes: Sizes, frames: &mut [u8]) -> Paging
        requires processes { sizes.processes ≤ 64 }
        requires small { sizes.memory ≤ 1048576 }
        requires whole { sizes.memory % 4096 ≡ 0 }
        requires room { (80 + sizes.processes * (sizes.memory / 4096)) * 4096 ≤ length frames.old }
        ensures sound { Sound result frames.new }
        ensures enough { Enough sizes result }
        ensures none { (p : ℕ) → held result p ≡ 0 }
    {
        make_tops(frames);
        let total = sizes.processes * (sizes.memory / 4096);
        for k in 0..total {
            put_free(frames, k as usize, 80 + k);
        }
        Paging::all_free(total)
    }

    // Process `p` begins with zeros.
    pub fn begin(&mut self, sizes: Sizes, frames: &mut [u8], p: usize)
        requires sound { Sound self.old frames.old }
        requires enough { Enough sizes self.old }
        requires process { p < sizes.processes }
        requires none { held self.old p ≡ 0 }
        ensures begun { Begun self.old frames.old self.new frames.new p (sizes.memory / 4096) (λ _. 0) }
        ensures enough { Enough sizes self.new }
    {
        for i in 0..sizes.memory as usize / 4096 {
            self.give_page(frames, p);
            self.zero_page(frames, p, i);
        }
    }

    // Process `to` begins with the bytes that process `from` has. (`begin` and it share two lines; what a page is filled with, as a closure, would need a longer
    // contract than the loop that it saves.)
    pub fn begin_copy(&mut self, sizes: Sizes, frames: &mut [u8], from: usize, to: usize)
        requires sound { Sound self.old frames.old }
        requires enough { Enough sizes self.old }
        requires processes { (from < sizes.processes) × (to < sizes.processes) }
        requires all { held self.old from ≡ sizes.memory / 4096 }
        requires none { held self.old to ≡ 0 }
        requires apart { from ≢ to }
        ensures begun { Begun self.old frames.old self.new frames.new to (sizes.memory / 4096) (byte_of frames.old from) }
        ensures enough { Enough sizes self.new }
    {
        for page in 0..sizes.memory as usize / 4096 {
            self.give_page(frames, to);
            self.copy_page(frames, from, to, page);
        }
    }

    // Process `p` ends: its frames are free.
    pub fn end(&mut self, sizes: Sizes, frames: &mut [u8], p: usize)
        requires sound { Sound self.old frames.old }
        requires enough { Enough sizes self.old }
        requires process { p < sizes.processes }
        requires all { held self.old p ≡ sizes.memory / 4096 }
        ensures ended { Ended self.old frames.old self.new frames.new p 0 }
        ensures enough { Enough sizes self.new }
    {
        for _ in 0..sizes.memory / 4096 {
            self.take_page(frames, p);
        }
    }
}
