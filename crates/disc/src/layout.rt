// Which header counts on a disc, and what a header says of the files. docs/LAYOUT.md explains the layout.
ghost use Rattle.std.specs.Prelude.{◌≡◌, ◌+◌, ◌*◌, ◌/◌, ◌^◌, ◌<◌, ◌≤◌, length};
ghost use Rattle.disc.specs.Blocks.{blocks};
ghost use Rattle.disc.specs.Layout.{room, current, current_header, length_in, copy_in};
ghost use Rattle.disc.specs.Plans.{shape};

use crate::plan::Plan;
use octets::Number;

// Which header counts: 0 or 1. A number and no enum: it is the bit on the disc, and places are computed from it.
pub fn current_of(disc: &[u8]) -> usize
    requires within { 1024 ≤ length disc.now }
    ensures value { result ≡ current (blocks disc.now) }
    ensures two { result < 2 }
{
    (disc[512] % 2) as usize
}

// The header that counts.
pub fn header_of(disc: &[u8], plan: Plan) -> &[u8]
    requires large { 512 * room (shape plan) ≤ length disc.now }
    ensures value { blocks result.now ≡ current_header (shape plan) (blocks disc.now) }
    ensures size { length result.now ≡ 512 * plan.head }
{
    let first = plan.head_at(current_of(disc));
    &disc[512 * first..512 * (first + plan.head)]
}

// The length of file f by a header.
pub fn length_of(head: &[u8], f: usize) -> usize
    requires lengths { 512 ≤ length head.now }
    requires file { f < 64 }
    ensures value { result ≡ length_in (blocks head.now) f }
    ensures within { result < 2 ^ 32 }
{
    u32::read(head, 4 * f) as usize
}

// Which copy of block j of the files counts by a header: 0 or 1, the bit in the header.
pub fn copy_of(head: &[u8], j: usize) -> usize
    requires bits { 512 * (2 + j / 4096) ≤ length head.now }
    ensures value { result ≡ copy_in (blocks head.now) j }
    ensures two { result < 2 }
{
    (head[512 + j / 8] >> (j % 8) & 1) as usize
}
