// What handles lead to, and what names stand for.
ghost use Rattle.std.specs.Prelude.{◌≡◌, ◌<◌, ◌≤◌, true, not, length, is_none, IfSome};
ghost use Rattle.turns.specs.World.{handle_of, end_of, opened, named};
ghost use Rattle.rv32.specs.Act.{core};
ghost use Rattle.processes.specs.Tabled.{Tabled, Worlds, RunsAt, thing};
ghost use Rattle.processes.specs.Looking.{lowest_free_handle};

use crate::Tables;
use turns::vocabulary::{End, OpenThing, Sizes};

impl Tables {
    // What handle `h` of process `p` leads to.
    #[tactic(auto, unfolding(turns::specs::World::handle_of))]
    pub fn handle_of(&self, p: usize, h: usize) -> Option<u8>
        requires there { p < 64 }
        ensures { (w : Worlds) → Tabled self.now w → result ≡ handle_of core w p h }
    {
        self.processes[p].handle(h)
    }

    // Whether handle `h` of process `p`, which runs, leads to an open thing. A bool: close needs no more, and copy hands the handle on as it is.
    #[tactic(auto, using(crate::proofs::Called::past_none), unfolding(turns::specs::World::handle_of))]
    pub(crate) fn has_handle(&self, p: usize, h: usize) -> bool
        requires runs { RunsAt self.now p }
        ensures leads { (w : Worlds) → Tabled self.now w → result ≡ not (is_none (handle_of core w p h)) }
        ensures within { result ≡ true → h < self.now.sizes.handles }
    {
        h < self.sizes.handles as usize && !self.processes[p].is_unused(h)
    }

    // The open thing `k`.
    pub fn open_thing(&self, k: u8) -> OpenThing
        ensures same { result ≡ thing self.now k }
        ensures opened { (w : Worlds) → Tabled self.now w → result ≡ opened w k }
    {
        self.opens[k as usize]
    }

    // The end behind handle `h` of process `p`.
    #[tactic(auto, unfolding(turns::specs::World::end_of, turns::specs::World::end_behind))]
    pub fn end_of(&self, p: usize, h: usize) -> End
        requires there { p < 64 }
        ensures { (w : Worlds) → Tabled self.now w → result ≡ end_of core w p h }
    {
        self.handle_of(p, h)
            .map_or(End::Nothing, |k| self.open_thing(k).end)
    }

    // The lowest handle of process `p`, from `from` on, that leads to nothing.
    pub(crate) fn free_handle(&self, p: usize, from: usize) -> Option<usize>
        requires there { p < 64 }
        ensures seen { result ≡ lowest_free_handle self.now p from }
        ensures within { IfSome result (λ h. h < self.now.sizes.handles) }
    {
        self.processes[p].free_handle(from, self.sizes.handles as usize)
    }
}

// What a name stands for: a file, or behind the files a screen. Nothing and no Option, so that it is one equation with the world's `named`.
#[tactic(auto, unfolding(octets::specs::Rows::pick, turns::specs::World::named))]
pub(crate) fn end_named(sizes: Sizes, name: u32) -> End
    requires files { sizes.files ≤ 64 }
    requires screens { sizes.screens ≤ 16 }
    ensures { (w : Worlds) → length w.files ≡ sizes.files → result ≡ named sizes w name }
{
    if name < sizes.files {
        End::File(name as u8)
    } else if name < sizes.files + sizes.screens {
        End::Screen((name - sizes.files) as u8)
    } else {
        End::Nothing
    }
}
