// A disc is made from sizes and files.
ghost use Rattle.std.specs.Prelude.{◌≡◌, ℕ, ◌+◌, ◌*◌, ◌<◌, ◌≤◌, true, ◌⊎◌, [], map, length, nat_lt, position, is_ok, IfOk, Some, Ok, vec_items, MatchResult, OnErr, OnOk, slice_index, slice_index_or};
ghost use Rattle.octets.specs.Words.{word_at};
ghost use Rattle.turns.specs.Ranges.{InRange, Fits};
ghost use Rattle.turns.specs.declared.sizes.SizeName.{SizeName as NameOfSize};
ghost use Rattle.disc.specs.Blocks.{blocks};
ghost use Rattle.disc.specs.Layout.{plan_of, data_at, room};
ghost use Rattle.disc.specs.Plans.{shape};
ghost use Rattle.disc.specs.Check.{named, sizes_in, first_out, Holds};
ghost use Rattle.disc.specs.Format.{image_length, Short, Counted, Misfits, Planned, Laid, EveryList, HeldFits};

use crate::check::first_out;
use crate::plan::Plan;
use octets::Number;
use turns::sizes::SizeName;
use turns::vocabulary::Sizes;

// Why a disc cannot be made.
#[derive(Clone, Copy, Debug, PartialEq, Eq)]
pub enum Misfit {
    // a size is out of range: the first one in the order in which they stand in block 0
    Size(SizeName),
    // there are more or fewer files than the sizes say
    Count,
    // a file is longer than a file may be: which
    File(usize),
    // the image is longer or shorter than the disc: how many bytes it must have
    Image(usize),
}

// How many bytes a disc of these sizes has.
pub fn image_size(sizes: Sizes) -> Result<usize, Misfit>
    ensures { MatchResult result (λ n. InRange sizes × (n ≡ image_length sizes)) (λ e. ((name : NameOfSize) × (e ≡ Misfit.Size name) × (first_out sizes ≡ Some name))) }
{
    match first_out(sizes) {
        Some(name) => Err(Misfit::Size(name)),
        None => Ok(512 * Plan::new(sizes).room()),
    }
}

// The first file that is longer than a file may be.
fn first_long(sizes: Sizes, files: &[Vec<u8>]) -> Option<usize>
    ensures { result ≡ position (λ file. nat_lt sizes.file (length (vec_items file))) files.now }
{
    files
        .iter()
        .position(|file| file.len() > sizes.file as usize)
}

// Whether the files fit, on an image of `len` bytes.
fn plan_for(len: usize, sizes: Sizes, files: &[Vec<u8>]) -> Result<Plan, Misfit>
    ensures value { MatchResult result (λ p. (shape p ≡ plan_of sizes) × (len ≡ image_length sizes)) (λ e. Misfits sizes (map vec_items files.now) len e) }
    ensures fits { OnOk result (Counted sizes (map vec_items files.now) × Short sizes (map vec_items files.now) sizes.files) }
    ensures plan { IfOk result (λ p. Planned (shape p) (map vec_items files.now) len) }
{
    let size = image_size(sizes)?;
    if files.len() != sizes.files as usize {
        return Err(Misfit::Count);
    }
    if let Some(f) = first_long(sizes, files) {
        return Err(Misfit::File(f));
    }
    if len != size {
        return Err(Misfit::Image(size));
    }
    Ok(Plan::new(sizes))
}

// Words are put one after the other, from place 4 on.
fn put_words(image: &mut [u8], words: &[u32])
    requires within { 4 + 4 * length words.now ≤ length image.old }
    ensures each { (k : ℕ) → k < length words.now → word_at image.new (4 + 4 * k) ≡ slice_index words.now k }
    ensures others { (k : ℕ) → (k < 4) ⊎ (4 + 4 * length words.now ≤ k) → slice_index image.new k ≡ slice_index image.old k }
{
    for (i, &word) in words.iter().enumerate() {
        word.write(image, 4 + 4 * i);
    }
}

// Block 0 begins with the name and the sizes.
fn put_sizes(image: &mut [u8], z: Sizes)
    requires within { 512 ≤ length image.old }
    ensures name { named image.new ≡ true }
    ensures sizes { sizes_in image.new ≡ z }
    ensures others { (k : ℕ) → 44 ≤ k → slice_index image.new k ≡ slice_index image.old k }
{
    let words = [
        z.processes,
        z.opens,
        z.pipes,
        z.handles,
        z.memory,
        z.pipe,
        z.file,
        z.files,
        z.screens,
        z.turn,
    ];
    put_words(image, &words);
    image[..4].copy_from_slice(b"TURN");
}

// The byte at which copy A of file f begins.
fn copy_at(plan: Plan, f: usize) -> usize
    requires file { f < plan.files }
    ensures value { result ≡ 512 * (data_at (shape plan) + f * plan.each) }
    ensures low { 512 * data_at (shape plan) ≤ result }
    ensures within { result + plan.size ≤ 512 * room (shape plan) }
{
    512 * (2 + 2 * plan.head + f * plan.each)
}

// File f of an image whose header A counts, and all whose copies A count: its length goes into the header, and its bytes into its blocks, which lie together.
fn put_file(image: &mut [u8], plan: Plan, f: usize, bytes: &[u8])
    requires large { 512 * room (shape plan) ≤ length image.old }
    requires file { f < plan.files }
    requires short { length bytes.now ≤ plan.size }
    ensures long { word_at image.new (1024 + 4 * f) ≡ length bytes.now }
    ensures held { (k : ℕ) → k < length bytes.now → slice_index image.new (512 * (data_at (shape plan) + f * plan.each) + k) ≡ slice_index bytes.now k }
    ensures others { (k : ℕ) → (k < 1024 + 4 * f) ⊎ (1028 + 4 * f ≤ k) → (k < 512 * (data_at (shape plan) + f * plan.each)) ⊎ (512 * (data_at (shape plan) + f * plan.each) + length bytes.now ≤ k) → slice_index image.new k ≡ slice_index image.old k }
{
    (bytes.len() as u32).write(image, 1024 + 4 * f);
    let at = copy_at(plan, f);
    image[at..at + bytes.len()].copy_from_slice(bytes);
}

// The files are put onto an image that is bare but for block 0.
fn put_files(image: &mut [u8], plan: Plan, files: &[Vec<u8>])
    requires planned { Planned (shape plan) (map vec_items files.now) (length image.old) }
    ensures { (z : Sizes) → Laid z (shape plan) (map vec_items files.now) 0 image.old → Laid z (shape plan) (map vec_items files.now) plan.files image.new }
{
    for (f, file) in files.iter().enumerate() {
        put_file(image, plan, f, file);
    }
}

// A disc with these sizes and files comes onto the image: what was there is gone. If they do not fit the image is left as it was.
pub fn format(image: &mut [u8], sizes: Sizes, files: &[Vec<u8>]) -> Result<(), Misfit>
    ensures value { MatchResult result (λ _. Holds sizes (blocks image.new) (map vec_items files.now) × (length image.new ≡ image_length sizes)) (λ e. Misfits sizes (map vec_items files.now) (length image.old) e) }
    ensures same { OnErr result (image.new ≡ image.old) }
    ensures fits { Fits sizes (map vec_items files.now) → length image.old ≡ image_length sizes → is_ok result ≡ true }
{
    let plan = plan_for(image.len(), sizes, files)?;
    image.fill(0);
    put_sizes(image, sizes);
    put_files(image, plan, files);
    Ok(())
}

// Files fit if and only if there is a disc that holds them, as a fact about lists; there is nothing to run.
pub fn what_fits_has_disc()
    ensures every { EveryList }
    ensures held { HeldFits }
{}
