// Queues: put at the back, take from the front.
ghost use Rattle.std.specs.Prelude.{◌≡◌, ℕ, ◌+◌, ◌-◌, ◌*◌, ◌<◌, ◌≤◌, min, ◌++◌, length, take, drop, slice_index};
ghost use Rattle.queues.specs.Rings.{queued, OthersKept, Empty, Shorter, round, Written};

use crate::Queue;

// These bytes are written into a row from place `at` on: behind the row's last place comes its first.
fn write_round(row: &mut [u8], at: usize, bytes: &[u8])
    requires row { length row.old ≡ 4096 }
    requires place { at < 4096 }
    requires fits { length bytes.now ≤ 4096 }
    ensures { Written row.old row.new at bytes.now }
{
    let (here, rest) = bytes.split_at(bytes.len().min(4096 - at));
    row[at..at + here.len()].copy_from_slice(here);
    row[..rest.len()].copy_from_slice(rest);
}

// The bytes of a row from place `at` on fill `out`: behind the row's last byte comes its first.
fn read_round(row: &[u8], at: usize, out: &mut [u8])
    requires row { length row.now ≡ 4096 }
    requires place { at < 4096 }
    requires fits { length out.old ≤ 4096 }
    ensures { (k : ℕ) → k < length out.old → slice_index out.new k ≡ round row.now (at + k) }
{
    let run = out.len().min(4096 - at);
    let (here, rest) = out.split_at_mut(run);
    here.copy_from_slice(&row[at..at + run]);
    rest.copy_from_slice(&row[..rest.len()]);
}

impl Queue {
    // No byte waits.
    pub fn empty() -> Queue
        ensures { Empty result }
    {
        Queue {
            start: 0,
            length: 0,
        }
    }

    // All bytes that wait are gone.
    pub fn clear(&mut self)
        ensures { Empty self.new }
    {
        *self = Queue::empty();
    }

    // How many bytes wait.
    pub fn len(&self) -> usize
        ensures { result ≡ self.now.length }
    {
        self.length
    }

    // The first of these bytes are put at the back, as many as fit in if `limit` may wait; how many those are.
    pub fn put(&mut self, rows: &mut [u8], t: usize, bytes: &[u8], limit: usize) -> usize
        requires row { t * 4096 + 4096 ≤ length rows.old }
        requires limit { limit ≤ 4096 }
        requires within { self.old.length ≤ limit }
        ensures count { result ≡ min (length bytes.now) (limit - self.old.length) }
        ensures few { result ≤ length bytes.now }
        ensures long { self.new.length ≡ self.old.length + result }
        ensures queue { queued self.new rows.new t ≡ queued self.old rows.old t ++ take result bytes.now }
        ensures others { OthersKept t rows.old rows.new }
    {
        let n = bytes.len().min(limit - self.length);
        let end = (self.start + self.length) % 4096;
        let at = t * 4096;
        write_round(&mut rows[at..at + 4096], end, &bytes[..n]);
        self.length += n;
        n
    }

    // The first `n` bytes are taken.
    fn take(&mut self, n: usize)
        requires some { n ≤ self.old.length }
        ensures long { self.new.length ≡ self.old.length - n }
        ensures queue { Shorter n self.old self.new }
    {
        self.start = (self.start + n) % 4096;
        self.length -= n;
    }

    // The first `n` bytes, or all if fewer wait, are taken and put into `out`, which may be longer than `n`; how many those are.
    // Without `n` callers would be asked for just so many bytes.
    pub fn take_into(&mut self, rows: &[u8], t: usize, n: usize, out: &mut [u8]) -> usize
        requires row { t * 4096 + 4096 ≤ length rows.now }
        requires room { n ≤ length out.old }
        ensures count { result ≡ min n self.old.length }
        ensures few { result ≤ n }
        ensures long { self.new.length ≡ self.old.length - result }
        ensures queue { queued self.new rows.now t ≡ drop result (queued self.old rows.now t) }
        ensures bytes { take result out.new ≡ take result (queued self.old rows.now t) }
        ensures rest { (k : ℕ) → result ≤ k → slice_index out.new k ≡ slice_index out.old k }
    {
        let count = n.min(self.length);
        let at = t * 4096;
        read_round(&rows[at..at + 4096], self.start, &mut out[..count]);
        self.take(count);
        count
    }
}
