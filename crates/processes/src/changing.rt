// One thing changes, and the tables are those of the changed world.
ghost use Rattle.std.specs.Prelude.{◌+◌, ◌<◌};
ghost use Rattle.turns.specs.World.{process, with_process, with_cpu, with_handle, with_open, moved};
ghost use Rattle.rv32.specs.Act.{core};
ghost use Rattle.rv32.specs.Execute.{answered};
ghost use Rattle.processes.specs.Tabled.{Follows, RunsAt, thing};

use crate::Tables;
use rv32::Cpu;
use turns::vocabulary::OpenThing;

impl Tables {
    // The registers of process `p` are these from now on.
    pub fn put_cpu(&mut self, p: usize, cpu: Cpu)
        requires there { p < self.old.sizes.processes }
        ensures { Follows self.old self.new (λ w. with_process w p (with_cpu (process core w p) cpu)) }
    {
        self.processes[p].cpu = cpu;
    }

    // Process `p`, which runs, goes on with the answer of its call.
    pub fn answer(&mut self, p: usize, value: u32)
        requires runs { RunsAt self.old p }
        ensures { Follows self.old self.new (λ w. with_process w p (with_cpu (process core w p) (answered (process core w p).cpu value))) }
    {
        self.processes[p].cpu.answer(value);
    }

    // Handle `h` of process `p`, which runs, leads to this from now on.
    pub(crate) fn set_handle(&mut self, p: usize, h: usize, to: Option<u8>)
        requires runs { RunsAt self.old p }
        requires there { h < self.old.sizes.handles }
        ensures { Follows self.old self.new (λ w. with_handle core w p h to) }
    {
        self.processes[p].set_handle(h, to);
    }

    // The open thing `k` is this from now on.
    pub(crate) fn set_open(&mut self, k: usize, thing: OpenThing)
        requires there { k < self.old.sizes.opens }
        ensures { Follows self.old self.new (λ w. with_open w k thing) }
    {
        self.opens[k] = thing;
    }

    // The open thing `k` moves on in its file by `n`.
    pub fn move_open(&mut self, k: usize, n: u32)
        requires there { k < self.old.sizes.opens }
        requires small { (thing self.old k).at + n < 4294967296 }
        ensures { Follows self.old self.new (λ w. moved w k n) }
    {
        self.opens[k].at += n;
    }
}
