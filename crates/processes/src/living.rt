// Processes come and go.
ghost use Rattle.std.specs.Prelude.{◌≡◌, ℕ, ◌%◌, ◌<◌, List};
ghost use Rattle.turns.specs.World.{process, nobody, with_process, orphaned, leaves};
ghost use Rattle.turns.specs.declared.vocabulary.State.TheVariants.{Free, Runs, Left};
ghost use Rattle.rv32.specs.Act.{core};
ghost use Rattle.processes.specs.Tabled.{Follows, FollowsIn, RunsAt};
ghost use Rattle.processes.specs.Changes.{without_parent, away, child, begun};

use crate::{Process, Tables};
use rv32::Cpu;
use turns::vocabulary::State;

impl Process {
    // A child of `p` gets process 0 for a parent.
    fn lose_parent(&mut self, p: usize)
        ensures { self.new ≡ without_parent p self.old }
    {
        if usize::from(self.parent) == p {
            self.parent = 0;
        }
    }

    // The place has this state and parent from now on, and no handles.
    fn put_away(&mut self, state: State, parent: u8)
        ensures { self.new ≡ away state parent self.old }
    {
        self.state = state;
        self.parent = parent;
        self.handles = [None; 16];
    }
}

impl Tables {
    // Children of `p` get process 0 for a parent.
    fn orphan(&mut self, p: usize)
        ensures { Follows self.old self.new (λ w. orphaned w p) }
    {
        for process in &mut self.processes {
            process.lose_parent(p);
        }
    }

    // Process `p` has left, with `n` modulo 256; its handles are gone; its children get parent 0.
    pub fn leave(&mut self, p: usize, n: u32)
        requires there { p < self.old.sizes.processes }
        ensures { FollowsIn self.old self.new p (Left (n % 256)) (λ w. (leaves core w p n).world) }
    {
        let parent = self.processes[p].parent;
        self.orphan(p);
        self.processes[p].put_away(State::Left((n % 256) as u8), parent);
    }

    // In place `q` begins a child of `p`, which runs: it is what the parent is, and goes on with 0.
    pub fn begin_child(&mut self, p: usize, q: usize)
        requires runs { RunsAt self.old p }
        requires there { q < self.old.sizes.processes }
        ensures { FollowsIn self.old self.new q Runs (λ w. with_process w q (child w p)) }
    {
        let mut child = self.processes[p];
        child.state = State::Runs;
        child.parent = p as u8;
        child.cpu.answer(0);
        self.processes[q] = child;
    }

    // Process `p`, which runs, begins another program, in a memory with the program in it; handles are kept.
    pub fn begin_program(&mut self, p: usize)
        requires runs { RunsAt self.old p }
        ensures { (m : List ℕ) → Follows self.old self.new (λ w. with_process w p (begun self.old.sizes.memory m (process core w p))) }
    {
        self.processes[p].cpu = Cpu::start(self.sizes.memory);
    }

    // Nobody is in place `p` from now on.
    pub(crate) fn make_free(&mut self, p: usize)
        requires there { p < self.old.sizes.processes }
        ensures { FollowsIn self.old self.new p Free (λ w. with_process w p (nobody core)) }
    {
        self.processes[p].put_away(State::Free, 0);
    }
}
