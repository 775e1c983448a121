// The ends of a new pipe.
ghost use Rattle.std.specs.Prelude.{ℕ, ◌<◌, List};
ghost use Rattle.processes.specs.Tabled.{Follows, Tabled, Worlds, RunsAt};
ghost use Rattle.processes.specs.Pipes.{Found, piped};

use crate::{PipeEnds, Tables};
use turns::vocabulary::{End, OpenThing};

impl Tables {
    // The lowest free pipe, the two lowest free open things and the two lowest free handles of `p`, if there are as many.
    #[tactic(auto, using(crate::proofs::Piped::ends))]
    pub fn find_pipe(&self, p: usize) -> Option<PipeEnds>
        requires there { p < 64 }
        ensures { (w : Worlds) → Tabled self.now w → Found self.now.sizes w p result }
    {
        let pipe = self.free_pipe()?;
        let read_open = self.free_open(0)?;
        let write_open = self.free_open(read_open + 1)?;
        let read_handle = self.free_handle(p, 0)?;
        let write_handle = self.free_handle(p, read_handle + 1)?;
        Some(PipeEnds {
            pipe: pipe as u8,
            read_open: read_open as u8,
            read_handle: read_handle as u8,
            write_open: write_open as u8,
            write_handle: write_handle as u8,
        })
    }

    // The ends of a new pipe are put into the tables, for `p`, which runs. The pipe's bytes, and the handles' numbers in memory, are the caller's to put.
    pub fn put_pipe(&mut self, p: usize, ends: PipeEnds)
        requires runs { RunsAt self.old p }
        requires opens { (ends.read_open < self.old.sizes.opens) × (ends.write_open < self.old.sizes.opens) }
        requires handles { (ends.read_handle < self.old.sizes.handles) × (ends.write_handle < self.old.sizes.handles) }
        ensures { (m : List ℕ) → Follows self.old self.new (λ w. piped w p ends m) }
    {
        let reads = OpenThing {
            end: End::ReadEnd(ends.pipe),
            at: 0,
        };
        let writes = OpenThing {
            end: End::WriteEnd(ends.pipe),
            at: 0,
        };
        self.set_open(ends.read_open as usize, reads);
        self.set_open(ends.write_open as usize, writes);
        self.set_handle(p, ends.read_handle as usize, Some(ends.read_open));
        self.set_handle(p, ends.write_handle as usize, Some(ends.write_open));
    }
}
