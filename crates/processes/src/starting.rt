// The tables at the start.
ghost use Rattle.std.specs.Prelude.{◌≡◌, ℕ, List};
ghost use Rattle.turns.specs.Ranges.{InRange};
ghost use Rattle.turns.specs.World.{begin};
ghost use Rattle.rv32.specs.Act.{core};
ghost use Rattle.processes.specs.Tabled.{Tabled};
ghost use Rattle.processes.specs.Changes.{empty, first};

use crate::{Process, Tables};
use rv32::Cpu;
use turns::vocabulary::{End, OpenThing, Sizes, State};

impl Process {
    // A place with nobody in it.
    fn empty() -> Process
        ensures { result ≡ empty }
    {
        Process {
            state: State::Free,
            parent: 0,
            cpu: Cpu::start(0),
            handles: [None; 16],
        }
    }

    // The first process, with so many bytes of memory: handles 0, 1 and 2 lead to open thing 0.
    fn first(memory: u32) -> Process
        ensures { result ≡ first memory }
    {
        let mut handles = [None; 16];
        handles[..3].fill(Some(0));
        Process {
            state: State::Runs,
            parent: 0,
            cpu: Cpu::start(memory),
            handles,
        }
    }
}

impl Tables {
    // At the start there is process 0; its handles 0, 1 and 2 lead to open thing 0, which is screen 0.
    pub fn start(sizes: Sizes) -> Tables
        requires { InRange sizes }
        ensures sizes { result.sizes ≡ sizes }
        ensures tabled { (files : List (List ℕ)) → Tabled result (begin core sizes files) }
    {
        let nobody = Process::empty();
        let mut processes = [nobody; 64];
        processes[0] = Process::first(sizes.memory);
        let closed = OpenThing {
            end: End::Nothing,
            at: 0,
        };
        let mut opens = [closed; 256];
        opens[0].end = End::Screen(0);
        Tables {
            sizes,
            processes,
            opens,
            turn: 0,
            used: 0,
        }
    }
}
