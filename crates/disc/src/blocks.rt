// Blocks of 512 bytes, and the one function that writes them: as far as the power allows.
ghost use Rattle.std.specs.Prelude.{◌≡◌, ◌+◌, ◌*◌, ◌≤◌, length, slice_set};
ghost use Rattle.disc.specs.Blocks.{at, blocks};
ghost use Rattle.disc.specs.Writes.{put_on, spent, puts, spent_by, row_writes, LastingWrites, LeftTears, OthersStay, GoneOrDone};

// How long power lasts: for ever; for so many more writes, and then the next one is torn; or no longer.
#[derive(Clone, Copy, Debug, PartialEq, Eq)]
pub enum Power {
    Lasting,
    Left(u32),
    Gone,
}

// A block is overwritten.
fn overwrite(disc: &mut [u8], block: usize, bytes: &[u8])
    requires within { 512 * (block + 1) ≤ length disc.old }
    requires whole { length bytes.now ≡ 512 }
    ensures { blocks disc.new ≡ slice_set (blocks disc.old) block bytes.now }
{
    let at = 512 * block;
    disc[at..at + 512].copy_from_slice(bytes);
}

// A block is written as far as the power allows: all writes to a disc go through here. When the power ends the block holds `torn`, which may be anything.
pub fn put(disc: &mut [u8], power: &mut Power, torn: &[u8], block: usize, bytes: &[u8])
    requires within { 512 * (block + 1) ≤ length disc.old }
    requires anything { length torn.now ≡ 512 }
    requires whole { length bytes.now ≡ 512 }
    ensures disc { blocks disc.new ≡ put_on power.old (blocks disc.old) block bytes.now torn.now }
    ensures power { power.new ≡ spent power.old }
{
    match *power {
        Power::Lasting => overwrite(disc, block, bytes),
        Power::Left(0) => {
            overwrite(disc, block, torn);
            *power = Power::Gone;
        }
        Power::Left(n) => {
            overwrite(disc, block, bytes);
            *power = Power::Left(n - 1);
        }
        Power::Gone => {}
    }
}

// The disc, the power and the torn block are three parameters here and in `put`: a struct that lends them would hold two `&mut` for two functions, no plainer.
// `n` stands beside `bytes`, which may be longer: without it callers would be asked for just so many bytes.
// The first n blocks of `bytes` are written into the blocks from `first` on, one after the other, as far as the power allows.
pub fn put_row(
    disc: &mut [u8],
    power: &mut Power,
    torn: &[u8],
    first: usize,
    bytes: &[u8],
    n: usize,
)
    requires within { 512 * (first + n) ≤ length disc.old }
    requires anything { length torn.now ≡ 512 }
    requires whole { 512 * n ≤ length bytes.now }
    ensures disc { blocks disc.new ≡ puts power.old (blocks disc.old) (row_writes first (at (blocks bytes.now)) n) torn.now }
    ensures power { power.new ≡ spent_by power.old (row_writes first (at (blocks bytes.now)) n) }
{
    let (blocks, _) = bytes.as_chunks::<512>();
    for (i, block) in blocks[..n].iter().enumerate() {
        put(disc, power, torn, first + i, block);
    }
}

// What holds of every row of writes under every power; there is nothing to run.
pub fn writes_go_out()
    ensures lasting { LastingWrites }
    ensures left { LeftTears }
    ensures others { OthersStay }
    ensures either { GoneOrDone }
{}
