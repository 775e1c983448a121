// Loads and stores of a running process, through the page that was used last.
ghost use Rattle.std.specs.Prelude.{◌≡◌, ◌%◌, ◌<◌, ◌≤◌, is_some, OnSome, IfNone};
ghost use Rattle.paging.specs.Tables.{place, byte_of};
ghost use Rattle.paging.specs.Pages.{Sound, Remembers, Forgotten};
ghost use Rattle.paging.specs.Changes.{Stored, Only};
ghost use Rattle.paging.specs.Accesses.{has, if_has, Within};

use crate::tables::frame;
use crate::{Cache, Paging};
use octets::Number;

// That a cache remembers rightly is a clause and no ghost field: it speaks of the frames, which are lent at each call.
impl Cache {
    // Nothing is remembered: this holds of every process, also of one whose tables were written.
    pub fn none() -> Cache
        ensures forgotten { Forgotten result }
        ensures beyond { 1048576 ≤ result.page }
    {
        Cache {
            page: 0xffff_ffff,
            base: 0,
        }
    }

    // Where byte `a` of process `p` lies, if it has one: the only way from an address to a place. A hit is in bounds, so that nothing else is tested.
    pub(crate) fn find(&mut self, paging: &Paging, frames: &[u8], p: usize, a: u32) -> Option<usize>
        requires sound { Sound paging.now frames.now }
        requires process { p < 64 }
        requires holds { Remembers paging.now frames.now p self.old }
        ensures value { result ≡ if_has paging.now p a (place frames.now p a) }
        ensures within { Within frames.now a result }
        ensures holds { Remembers paging.now frames.now p self.new }
    {
        let page = a / 4096;
        if page != self.page {
            if page >= paging.pages[p] {
                return None;
            }
            self.base = frame(frames, p, page as usize) * 4096;
            self.page = page;
        }
        Some(self.base + (a % 4096) as usize)
    }

    // The number in the bytes from address `a` on, if process `p` has them.
    pub fn load<N: Number>(&mut self, paging: &Paging, frames: &[u8], p: usize, a: u32) -> Option<N>
        requires sound { Sound paging.now frames.now }
        requires process { p < 64 }
        requires aligned { a % N.size ≡ 0 }
        requires holds { Remembers paging.now frames.now p self.old }
        ensures value { result ≡ if_has paging.now p a (N.from (byte_of frames.now p) a) }
        ensures holds { Remembers paging.now frames.now p self.new }
    {
        let at = self.find(paging, frames, p, a)?;
        Some(N::read(frames, at))
    }

    // A number is put into the bytes from address `a` on; none, and nothing is written, if process `p` has them not.
    pub fn store<N: Number>(
        &mut self,
        paging: &Paging,
        frames: &mut [u8],
        p: usize,
        a: u32,
        value: N,
    ) -> Option<()>
        requires sound { Sound paging.now frames.old }
        requires process { p < 64 }
        requires aligned { a % N.size ≡ 0 }
        requires holds { Remembers paging.now frames.old p self.old }
        ensures done { is_some result ≡ has paging.now p a }
        ensures stored { OnSome result (Stored paging.now frames.old frames.new p a (N.bytes value)) }
        ensures nothing { IfNone result (frames.new ≡ frames.old) }
        ensures only { Only p paging.now frames.old frames.new }
        ensures holds { Remembers paging.now frames.new p self.new }
    {
        let at = self.find(paging, frames, p, a)?;
        value.write(frames, at);
        Some(())
    }
}
