// The tables of a time-sharing system: who is in which place, which handles a process has, and what the open things are that handles lead to. No memory, files,
// pipes or screens are here: only numbers of them. `Tabled` (specs/Tabled) says of which worlds the tables are.
#![tactic(auto)]

ghost use Rattle.std.specs.Prelude.{◌<◌};
ghost use Rattle.turns.specs.Ranges.{InRange};

mod calls;
mod changing;
mod handles;
pub mod laws;
mod living;
mod looking;
mod passing;
mod piping;
mod reading;
mod starting;

use rv32::Cpu;
use turns::vocabulary::{OpenThing, Sizes, State};

// A place for a process, and who is in it. A handle leads to an open thing, by its number, or to none; an array, since a board has no heap.
#[derive(Clone, Copy, Debug, PartialEq, Eq)]
pub struct Process {
    pub state: State,
    // 0 also where it is nobody's child, as in the world
    pub parent: u8,
    pub cpu: Cpu,
    pub handles: [Option<u8>; 16],
}

// All places and all open things; `sizes` says how many of them there are. `turn`: whose turn it is; `used`: how many of its instructions are over.
// That a number is a place, or that a process runs there, is a clause (`RunsAt`): no type of places, since some calls take any number.
// The arrays are as long as they can be at most, since a board has fixed memory and no heap; places and open things go by their numbers, as in the world.
#[derive(Clone, Copy, Debug, PartialEq, Eq)]
pub struct Tables {
    pub sizes: Sizes,
    pub processes: [Process; 64],
    pub opens: [OpenThing; 256],
    pub turn: u8,
    pub used: u32,
    pub ghost in_range: { InRange sizes },
    pub ghost turn_there: { turn < sizes.processes },
    pub ghost used_within: { used < sizes.turn },
}

// The two ends of a pipe: its number, the open things that are its ends, and the handles that lead to them.
#[derive(Clone, Copy, Debug, PartialEq, Eq)]
pub struct PipeEnds {
    pub pipe: u8,
    pub read_open: u8,
    pub read_handle: u8,
    pub write_open: u8,
    pub write_handle: u8,
}
