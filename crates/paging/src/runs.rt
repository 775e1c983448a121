// Stretches of a process's memory, by the longest runs within a page. A long write goes run by run: what `run` lends can be handed on to a screen, a pipe or a file
// as it is.
ghost use Rattle.std.specs.Prelude.{◌≡◌, ℕ, ◌+◌, ◌-◌, ◌*◌, ◌/◌, ◌%◌, ◌<◌, ◌≤◌, min, length, slice_index};
ghost use Rattle.paging.specs.Tables.{place, byte_of};
ghost use Rattle.paging.specs.Pages.{Sound, held};
ghost use Rattle.paging.specs.Changes.{Put, Stored};

use crate::Paging;
use crate::tables::frame;

impl Paging {
    // Where byte `a` of process `p` lies: behind the tables, and with all of its page within the frames.
    fn place_of(&self, frames: &[u8], p: usize, a: usize) -> usize
        requires sound { Sound self.now frames.now }
        requires process { p < 64 }
        requires page { a / 4096 < held self.now p }
        ensures value { result ≡ place frames.now p a }
        ensures above { 327680 ≤ result }
        ensures within { result + 4096 ≤ length frames.now + a % 4096 }
    {
        frame(frames, p, a / 4096) * 4096 + a % 4096
    }

    // The bytes of process `p` from address `a` on, as many as lie in one page, and at most `n`. They are lent, not copied.
    pub fn run<'a>(&self, frames: &'a [u8], p: usize, a: usize, n: usize) -> &'a [u8]
        requires sound { Sound self.now frames.now }
        requires process { p < 64 }
        requires some { 0 < n }
        requires within { a + n ≤ held self.now p * 4096 }
        ensures long { length result.now ≡ min n (4096 - a % 4096) }
        ensures some { (0 < length result.now) × (length result.now ≤ n) }
        ensures bytes { (k : ℕ) → k < length result.now → slice_index result.now k ≡ byte_of frames.now p (a + k) }
    {
        let at = self.place_of(frames, p, a);
        let end = at + n.min(4096 - a % 4096);
        &frames[at..end]
    }

    // Copies `n` bytes of process `p`, from address `a` on, into `out`, which may be longer: without `n` callers would be asked for just so many bytes.
    pub fn load_bytes(&self, frames: &[u8], p: usize, a: usize, n: usize, out: &mut [u8])
        requires sound { Sound self.now frames.now }
        requires process { p < 64 }
        requires within { a + n ≤ held self.now p * 4096 }
        requires room { n ≤ length out.old }
        ensures bytes { (k : ℕ) → k < n → slice_index out.new k ≡ byte_of frames.now p (a + k) }
        ensures rest { (k : ℕ) → n ≤ k → slice_index out.new k ≡ slice_index out.old k }
    {
        // A step is a run, as long as a page allows: no range and no chunks of std go so, and an iterator over runs would be a type for this one loop.
        let mut done = 0;
        while done < n {
            let run = self.run(frames, p, a + done, n - done);
            let next = done + run.len();
            out[done..next].copy_from_slice(run);
            done = next;
        }
    }

    // Puts the first of these bytes at address `a` of process `p` and on, as many as lie in one page; how many those are.
    pub(crate) fn store_run(&self, frames: &mut [u8], p: usize, a: usize, bytes: &[u8]) -> usize
        requires sound { Sound self.now frames.old }
        requires process { p < 64 }
        requires some { 0 < length bytes.now }
        requires within { a + length bytes.now ≤ held self.now p * 4096 }
        ensures long { result ≡ min (length bytes.now) (4096 - a % 4096) }
        ensures put { Put self.now frames.old frames.new p a result (λ k. slice_index bytes.now k) }
    {
        let at = self.place_of(frames, p, a);
        let n = bytes.len().min(4096 - a % 4096);
        frames[at..at + n].copy_from_slice(&bytes[..n]);
        n
    }

    // Puts these bytes at address `a` of process `p` and on.
    pub fn store_bytes(&self, frames: &mut [u8], p: usize, a: usize, bytes: &[u8])
        requires sound { Sound self.now frames.old }
        requires process { p < 64 }
        requires within { a + length bytes.now ≤ held self.now p * 4096 }
        ensures { Stored self.now frames.old frames.new p a bytes.now }
    {
        // Run by run, as above.
        let mut done = 0;
        while done < bytes.len() {
            done += self.store_run(frames, p, a + done, &bytes[done..]);
        }
    }
}
