// The files of a disc by a header, which may be the disc's own or one that is kept beside it. No equality: nobody compares two.
ghost use Rattle.std.specs.Prelude.{◌≡◌, ◌+◌, ◌-◌, min, ◌*◌, ◌≤◌, length};
ghost use Rattle.std.specs.List.{list_all, range_with_len};
ghost use Rattle.disc.specs.Layout.{room};
ghost use Rattle.disc.specs.Plans.{shape};
ghost use Rattle.disc.specs.Same.{same_from};

use crate::layout::{copy_of, length_of};
use crate::plan::Plan;

#[derive(Clone, Copy)]
pub struct Files<'a> {
    pub disc: &'a [u8],
    pub plan: Plan,
    pub head: &'a [u8],
    // the disc has all blocks of the plan, and the header all of its own
    pub ghost large: { 512 * room (shape plan) ≤ length disc.now },
    pub ghost size: { length head.now ≡ 512 * plan.head },
}

// Whether a block that begins at place `start` of a row holds the same as some bytes from place `at` on, as far as these go.
fn is_same_row(row: &[u8], start: usize, bytes: &[u8], at: usize) -> bool
    requires { start + 512 ≤ length row.now }
    ensures { result ≡ list_all (same_from row.now start bytes.now at) (range_with_len 0 (min (length bytes.now - at) 512)) }
{
    (0..bytes.len().saturating_sub(at).min(512)).all(|i| row[start + i] == bytes[at + i])
}

impl<'a> Files<'a> {
    ghost use Rattle.std.specs.List.{list_all, range_with_len};
    ghost use Rattle.std.specs.Prelude.{◌≡◌, ℕ, ◌+◌, ◌-◌, min, ◌*◌, ◌<◌, ◌≤◌, true, false, [], map, length, take, drop, vec_items, ◌≢◌, slice_index, slice_index_or};
    ghost use Rattle.disc.specs.Layout.{length_in};
    ghost use Rattle.disc.specs.Lent.{header_of, file_of};

    // The byte at a place of file f; the place is before the file's end.
    pub fn byte_at(&self, f: usize, at: usize) -> u8
        requires file { f < self.now.plan.files }
        requires within { at < length_in (header_of self.now) f }
        requires sound { at < self.now.plan.size }
        ensures { result ≡ slice_index (file_of self.now f) at }
    {
        let j = f * self.plan.each + at / 512;
        let block = self.plan.place_of(copy_of(self.head, j), j);
        self.disc[512 * block + at % 512]
    }

    // A stretch of file f, from place `from` on, is copied into `out`.
    pub fn read(&self, f: usize, from: usize, out: &mut [u8])
        requires file { f < self.now.plan.files }
        requires within { from + length out.old ≤ length_in (header_of self.now) f }
        requires sound { length_in (header_of self.now) f ≤ self.now.plan.size }
        ensures { out.new ≡ take (length out.old) (drop from (file_of self.now f)) }
    {
        for (k, byte) in out.iter_mut().enumerate() {
            *byte = self.byte_at(f, from + k);
        }
    }

    // Whether block b of file f holds the same as `bytes`, which are as long as the file.
    fn is_same_block(&self, f: usize, b: usize, bytes: &[u8]) -> bool
        requires file { f < self.now.plan.files }
        requires block { b < self.now.plan.each }
        requires long { length_in (header_of self.now) f ≡ length bytes.now }
        requires sound { length bytes.now ≤ self.now.plan.size }
        ensures { result ≡ list_all (same_from (file_of self.now f) (512 * b) bytes.now (512 * b)) (range_with_len 0 (min (length bytes.now - 512 * b) 512)) }
    {
        // The block is looked up once, and not for each byte.
        let j = f * self.plan.each + b;
        let block = self.plan.place_of(copy_of(self.head, j), j);
        is_same_row(self.disc, 512 * block, bytes, 512 * b)
    }

    // Whether the files are just these: their lengths, and block by block what they hold where the header's bits say, up to the first that differs.
    pub fn is_same(&self, files: &[Vec<u8>]) -> bool
        requires count { length files.now ≡ self.now.plan.files }
        requires sound { (f : ℕ) → f < self.now.plan.files → length_in (header_of self.now) f ≤ self.now.plan.size }
        ensures yes { result ≡ true → (f : ℕ) → f < self.now.plan.files → file_of self.now f ≡ slice_index_or (map vec_items files.now) f [] }
        ensures no { result ≡ false → ((f : ℕ) → f < self.now.plan.files → file_of self.now f ≡ slice_index_or (map vec_items files.now) f []) → ⊥ }
    {
        // Nested loops left by a label: a form that this repository is to show.
        let mut same = true;
        'files: for (f, file) in files.iter().enumerate() {
            let bytes = file.as_slice();
            if length_of(self.head, f) != bytes.len() {
                same = false;
                break 'files;
            }
            for b in 0..self.plan.each {
                if !self.is_same_block(f, b, bytes) {
                    same = false;
                    break 'files;
                }
            }
        }
        same
    }
}
