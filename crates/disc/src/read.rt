// What the files of a disc hold. A file goes by its number, below the number of files on this disc: a clause, since it hangs on the sizes. The disc and its
// sizes are two parameters, and no value with the disc lent in it: a board's disc is written between two calls.
ghost use Rattle.std.specs.Prelude.{◌≡◌, ◌+◌, ◌<◌, ◌≤◌, true, false, [], map, length, take, drop, vec_items, slice_index_or};
ghost use Rattle.disc.specs.Blocks.{blocks};
ghost use Rattle.disc.specs.Layout.{plan_of, files_on};
ghost use Rattle.disc.specs.Check.{Taken, Holds};

use crate::files::Files;
use crate::layout::{header_of, length_of};
use crate::plan::Plan;
use turns::vocabulary::Sizes;

// The length of file f of a disc.
pub fn file_length(disc: &[u8], sizes: Sizes, f: usize) -> usize
    requires taken { Taken sizes (blocks disc.now) }
    requires file { f < sizes.files }
    ensures value { result ≡ length (slice_index_or (files_on (plan_of sizes) (blocks disc.now)) f []) }
    ensures within { result ≤ sizes.file }
{
    let plan = Plan::new(sizes);
    length_of(header_of(disc, plan), f)
}

// A stretch of file f of a disc, from place `from` on, is copied into `out`.
pub fn read_file(disc: &[u8], sizes: Sizes, f: usize, from: usize, out: &mut [u8])
    requires taken { Taken sizes (blocks disc.now) }
    requires file { f < sizes.files }
    requires within { from + length out.old ≤ length (slice_index_or (files_on (plan_of sizes) (blocks disc.now)) f []) }
    ensures { out.new ≡ take (length out.old) (drop from (slice_index_or (files_on (plan_of sizes) (blocks disc.now)) f [])) }
{
    let plan = Plan::new(sizes);
    let head = header_of(disc, plan);
    Files { disc, plan, head }.read(f, from, out);
}

// Whether a disc holds just these files.
pub fn holds_files(disc: &[u8], sizes: Sizes, files: &[Vec<u8>]) -> bool
    requires taken { Taken sizes (blocks disc.now) }
    ensures yes { result ≡ true → Holds sizes (blocks disc.now) (map vec_items files.now) }
    ensures no { result ≡ false → Holds sizes (blocks disc.now) (map vec_items files.now) → ⊥ }
{
    if files.len() != sizes.files as usize {
        return false;
    }
    let plan = Plan::new(sizes);
    let head = header_of(disc, plan);
    Files { disc, plan, head }.is_same(files)
}
