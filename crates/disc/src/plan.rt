// What the layout needs of the sizes.
ghost use Rattle.disc.specs.Layout.{Fit};

use turns::vocabulary::Sizes;

#[derive(Clone, Copy, Debug, PartialEq, Eq)]
pub struct Plan {
    // how many files there are
    pub files: usize,
    // how many bytes a file may have
    pub size: usize,
    // how many blocks a file has
    pub each: usize,
    // how many blocks a header has
    pub head: usize,
    // there is a place for each length, each bit and each byte, and there are no more blocks than any sizes need
    pub ghost fit: { Fit (record { files = files; size = size; each = each; head = head }) },
}

impl Plan {
    ghost use Rattle.std.specs.Prelude.{◌≡◌, ◌+◌, ◌*◌, ◌<◌, ◌≤◌};
    ghost use Rattle.turns.specs.Ranges.{InRange};
    ghost use Rattle.disc.specs.Layout.{plan_of, head_at, place, room};
    ghost use Rattle.disc.specs.Plans.{shape};

    pub fn new(sizes: Sizes) -> Plan
        requires range { InRange sizes }
        ensures { shape result ≡ plan_of sizes }
    {
        let files = sizes.files as usize;
        let size = sizes.file as usize;
        let each = (size + 511) / 512;
        let head = 1 + (files * each + 4095) / 4096;
        Plan {
            files,
            size,
            each,
            head,
        }
    }

    // How many blocks a disc must have.
    pub fn room(self) -> usize
        ensures value { result ≡ room (shape self) }
        ensures few { result ≤ 65556 }
    {
        2 + 2 * self.head + 2 * (self.files * self.each)
    }

    // The block at which header c begins.
    pub fn head_at(self, c: usize) -> usize
        requires two { c < 2 }
        ensures value { result ≡ head_at (shape self) c }
        ensures within { result + self.head ≤ 2 + 2 * self.head }
    {
        if c == 0 { 2 } else { 2 + self.head }
    }

    // The block at which copy c of block j of the files is.
    pub fn place_of(self, c: usize, j: usize) -> usize
        requires two { c < 2 }
        requires within { j < self.files * self.each }
        ensures value { result ≡ place (shape self) c j }
        ensures within { result < room (shape self) }
    {
        let first = 2 + 2 * self.head;
        if c == 0 {
            first + j
        } else {
            first + (self.files * self.each + j)
        }
    }
}
