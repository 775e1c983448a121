// Which discs are taken: a disc is looked through before anything is done with it, and refused with a number and a place.
ghost use Rattle.std.specs.Prelude.{◌≡◌, ◌+◌, ◌*◌, ◌/◌, ◌%◌, ◌<◌, ◌≤◌, true, false, length, IfNone, IfOk, Some, None, Ok, OnOk};
ghost use Rattle.std.specs.Result.{result_err};
ghost use Rattle.turns.specs.Ranges.{InRange};
ghost use Rattle.disc.specs.Blocks.{at, blocks};
ghost use Rattle.disc.specs.Layout.{room};
ghost use Rattle.disc.specs.Plans.{shape};
ghost use Rattle.disc.specs.Check.{number, refused_at, refusal_words, in_range, named, disc_sizes, first_out, too_long, first_wrong, frames_for, length_refusal, name_refusal, size_refusal, block_refusal, frame_refusal, disc_refusal, refusal_of, TakenBytes, Enough};

use crate::layout::current_of;
use crate::plan::Plan;
use octets::Number;
use std::fmt;
use turns::sizes::SizeName;
use turns::vocabulary::Sizes;

// Why a disc is refused or what is lent beside it, with the place that is reported.
#[derive(Clone, Copy, Debug, PartialEq, Eq)]
pub enum Refusal {
    // the disc's length is no multiple of 512, below 2 blocks or above 131,072
    Length(usize),
    // it does not begin with "TURN"
    Name,
    // a size is out of range: where it stands
    Size(usize),
    // a block is not as the layout says: where it begins
    Block(usize),
    // too few frames are lent: how many would do
    Frames(usize),
    // an event is none, or one too many: where it begins. Found by whoever reads events
    Event(usize),
}

impl Refusal {
    // The number under which it is reported: the report's format has numbers.
    pub fn number(self) -> u8
        ensures { result ≡ number self }
    {
        match self {
            Refusal::Length(_) => 1,
            Refusal::Name => 2,
            Refusal::Size(_) => 3,
            Refusal::Block(_) => 4,
            Refusal::Frames(_) => 5,
            Refusal::Event(_) => 6,
        }
    }

    pub fn place(self) -> usize
        ensures { result ≡ refused_at self }
    {
        match self {
            Refusal::Name => 0,
            Refusal::Length(n) | Refusal::Frames(n) => n,
            Refusal::Size(at) | Refusal::Block(at) | Refusal::Event(at) => at,
        }
    }
}

impl fmt::Display for Refusal {
    ghost output = { λ refusal. Some (refusal_words refusal) };

    fn fmt<W: fmt::Write>(&self, f: &mut fmt::Formatter<W>) -> fmt::Result {
        write!(f, "refused {} at {}", self.number(), self.place())
    }
}

fn check_length(disc: &[u8]) -> Result<(), Refusal>
    ensures value { length_refusal (length disc.now) ≡ result_err result }
    ensures whole { OnOk result ((1024 ≤ length disc.now) × (length disc.now ≤ 67108864) × (length disc.now % 512 ≡ 0)) }
{
    let n = disc.len();
    if n % 512 == 0 && (2 * 512..=131_072 * 512).contains(&n) {
        Ok(())
    } else {
        Err(Refusal::Length(n))
    }
}

fn is_named(disc: &[u8]) -> bool
    ensures { result ≡ named disc.now }
{
    disc.starts_with(b"TURN")
}

fn check_name(disc: &[u8]) -> Result<(), Refusal>
    requires within { 512 ≤ length disc.now }
    ensures { name_refusal (at (blocks disc.now) 0) ≡ result_err result }
{
    if is_named(disc) {
        Ok(())
    } else {
        Err(Refusal::Name)
    }
}

// The sizes in block 0, in range or not.
fn sizes_of(disc: &[u8]) -> Sizes
    requires within { 512 ≤ length disc.now }
    ensures { result ≡ disc_sizes disc.now }
{
    Sizes {
        processes: u32::read(disc, 4),
        opens: u32::read(disc, 8),
        pipes: u32::read(disc, 12),
        handles: u32::read(disc, 16),
        memory: u32::read(disc, 20),
        pipe: u32::read(disc, 24),
        file: u32::read(disc, 28),
        files: u32::read(disc, 32),
        screens: u32::read(disc, 36),
        turn: u32::read(disc, 40),
    }
}

// Whether a size is in its range.
#[tactic(auto, unfolding(crate::specs::Check::in_range))]
fn is_in_range(name: SizeName, z: Sizes) -> bool
    ensures { result ≡ in_range name z }
{
    match name {
        SizeName::Processes => (1..=64).contains(&z.processes),
        SizeName::Opens => (1..=256).contains(&z.opens),
        SizeName::Pipes => z.pipes <= 64,
        SizeName::Handles => (3..=16).contains(&z.handles),
        SizeName::Memory => (4_096..=1_048_576).contains(&z.memory) && z.memory % 4_096 == 0,
        SizeName::Pipe => (1..=4_096).contains(&z.pipe),
        SizeName::File => z.file <= 262_144,
        SizeName::Files => (1..=64).contains(&z.files),
        SizeName::Screens => (1..=16).contains(&z.screens),
        SizeName::Turn => (1..=65_535).contains(&z.turn),
    }
}

// The first size that is not in its range; alone, since a proof knows what a chain gave only where it is returned.
#[tactic(auto, unfolding(crate::specs::Check::first_out))]
fn first_outside(z: Sizes) -> Option<SizeName>
    ensures { result ≡ first_out z }
{
    SizeName::ALL
        .iter()
        .copied()
        .find(|&name| !is_in_range(name, z))
}

// Which size is the first that is out of range, in the order in which they stand in block 0; if there is none, all are in range.
#[tactic(auto, using(crate::proofs::Verdicts::range_if_none))]
pub fn first_out(z: Sizes) -> Option<SizeName>
    ensures value { result ≡ first_out z }
    ensures range { IfNone result (InRange z) }
{
    first_outside(z)
}

fn check_sizes(z: Sizes) -> Result<(), Refusal>
    ensures value { size_refusal (first_out z) ≡ result_err result }
    ensures range { OnOk result (InRange z) }
{
    match first_out(z) {
        Some(name) => Err(Refusal::Size(4 + 4 * name.place())),
        None => Ok(()),
    }
}

// Whether one of the lengths in the first block of a header is above the size of a file.
#[tactic(auto, unfolding(crate::specs::Check::too_long))]
fn is_too_long(lengths: &[u8], plan: Plan) -> bool
    requires whole { length lengths.now ≡ 512 }
    ensures { result ≡ too_long (shape plan) lengths.now }
{
    (0..plan.files).any(|f| u32::read(lengths, 4 * f) as usize > plan.size)
}

// The lowest block that is not as the layout says: lengths are looked at first, since a header lies below what may be missing.
fn check_blocks(disc: &[u8], plan: Plan) -> Result<(), Refusal>
    requires least { 1024 ≤ length disc.now }
    requires most { length disc.now ≤ 67108864 }
    ensures { block_refusal (room (shape plan)) (first_wrong (shape plan) (blocks disc.now)) ≡ result_err result }
{
    let first = plan.head_at(current_of(disc));
    let count = disc.len() / 512;
    if first < count && is_too_long(&disc[512 * first..512 * first + 512], plan) {
        return Err(Refusal::Block(512 * first));
    }
    if count < plan.room() {
        return Err(Refusal::Block(512 * count));
    }
    Ok(())
}

// Whether so many bytes are enough for all processes and the tables.
fn check_frames(z: Sizes, lent: usize) -> Result<(), Refusal>
    requires range { InRange z }
    ensures { frame_refusal (frames_for z) lent ≡ result_err result }
{
    let needed = z.processes as usize * z.memory as usize / 4_096 + 80;
    if lent / 4_096 < needed {
        return Err(Refusal::Frames(needed));
    }
    Ok(())
}

// The sizes of a disc that is taken; else the first of refusals 1 to 4.
pub fn check_disc(disc: &[u8]) -> Result<Sizes, Refusal>
    ensures value { disc_refusal disc.now ≡ result_err result }
    ensures taken { IfOk result (λ z. TakenBytes z disc.now) }
    ensures only { (z : Sizes) → TakenBytes z disc.now → result ≡ Ok z }
{
    check_length(disc)?;
    check_name(disc)?;
    let sizes = sizes_of(disc);
    check_sizes(sizes)?;
    check_blocks(disc, Plan::new(sizes))?;
    Ok(sizes)
}

// The sizes of a disc that is taken, if so many bytes are enough for its frames; else the first of refusals 1 to 5.
pub fn check(disc: &[u8], lent: usize) -> Result<Sizes, Refusal>
    ensures value { refusal_of disc.now lent ≡ result_err result }
    ensures taken { IfOk result (λ z. TakenBytes z disc.now × Enough z lent) }
    ensures only { (z : Sizes) → TakenBytes z disc.now → Enough z lent → result ≡ Ok z }
{
    let sizes = check_disc(disc)?;
    check_frames(sizes, lent)?;
    Ok(sizes)
}
