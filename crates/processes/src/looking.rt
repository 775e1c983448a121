// Looking at the tables: what is seen there (specs/Looking), which is the world's answer.
ghost use Rattle.std.specs.Prelude.{◌≡◌, ◌<◌, true, ◌&&◌, ◌||◌, IfSome};
ghost use Rattle.std.specs.List.{range_with_len, list_any};
ghost use Rattle.turns.specs.World.{runs_in, writers, readers, free_process, is_free, is_left, left_with, is_running};
ghost use Rattle.rv32.specs.Act.{core};
ghost use Rattle.processes.specs.Tabled.{Tabled, Worlds, place, thing};
ghost use Rattle.processes.specs.declared.looking.Side.TheVariants.{Writing, Reading};
ghost use Rattle.processes.specs.Looking.{one_of, holds_open, open_in_use, lowest_free_place, lowest_free_open, is_end, end_in_use, lowest_free_pipe};
ghost use Rattle.processes.specs.Looking.{child_at, lowest_left_child};

use crate::Tables;
use turns::vocabulary::End;

// The two sides of a pipe.
#[derive(Clone, Copy, Debug, PartialEq, Eq)]
enum Side {
    Writing,
    Reading,
}

impl Tables {
    // Whether somebody runs in place `p`.
    #[tactic(auto, unfolding(turns::specs::World::runs_in))]
    pub fn runs_in(&self, p: usize) -> bool
        requires there { p < 64 }
        ensures seen { result ≡ is_running (place self.now p).state }
        ensures runs { (w : Worlds) → Tabled self.now w → result ≡ runs_in core w p }
    {
        self.processes[p].runs()
    }

    // Whether process `p` runs and has a handle on the open thing `k`.
    fn has_open(&self, k: usize, p: usize) -> bool
        requires there { p < 64 }
        ensures { result ≡ holds_open self.now k p }
    {
        self.processes[p].runs() && self.processes[p].holds(k, self.sizes.handles as usize)
    }

    // Whether the open thing `k` is in use: somebody who runs has a handle on it.
    fn in_use(&self, k: usize) -> bool
        ensures { result ≡ open_in_use self.now k }
    {
        (0..self.sizes.processes as usize).any(|p| self.has_open(k, p))
    }

    // The lowest place with nobody in it, as it is seen here.
    fn lowest_free(&self) -> Option<usize>
        ensures seen { result ≡ lowest_free_place self.now }
        ensures found { IfSome result (λ p. (p < self.now.sizes.processes) × (is_free (place self.now p).state ≡ true)) }
    {
        (0..self.sizes.processes as usize).find(|&p| self.processes[p].is_free())
    }

    // The lowest place with nobody in it.
    #[tactic(auto, using(crate::proofs::Seeing::place_is))]
    pub fn free_process(&self) -> Option<usize>
        ensures number { (w : Worlds) → Tabled self.now w → result ≡ one_of self.now.sizes.processes (free_process core self.now.sizes w) }
        ensures found { IfSome result (λ p. (p < self.now.sizes.processes) × (is_free (place self.now p).state ≡ true)) }
    {
        self.lowest_free()
    }

    // The lowest open thing from `from` on that is not in use.
    pub(crate) fn free_open(&self, from: usize) -> Option<usize>
        ensures seen { result ≡ lowest_free_open self.now from }
        ensures within { IfSome result (λ k. k < self.now.sizes.opens) }
    {
        (from..self.sizes.opens as usize).find(|&k| !self.in_use(k))
    }

    // Whether the open thing `k` is in use and is an end of pipe `j`, on this side.
    fn is_used_end(&self, side: Side, j: usize, k: usize) -> bool
        requires there { k < 256 }
        ensures { result ≡ (is_end side j (thing self.now k).end && open_in_use self.now k) }
    {
        is_end(self.opens[k].end, side, j) && self.in_use(k)
    }

    // Whether pipe `j` has an end in use, on this side.
    fn has_end(&self, side: Side, j: usize) -> bool
        ensures { result ≡ end_in_use self.now side j }
    {
        (0..self.sizes.opens as usize).any(|k| self.is_used_end(side, j, k))
    }

    // Whether somebody can write into pipe `j`.
    #[tactic(auto, using(crate::proofs::Seeing::writes_is))]
    pub fn writers(&self, j: usize) -> bool
        ensures { (w : Worlds) → Tabled self.now w → result ≡ writers core w j }
    {
        self.has_end(Side::Writing, j)
    }

    // Whether somebody can read from pipe `j`.
    #[tactic(auto, using(crate::proofs::Seeing::reads_is))]
    pub fn readers(&self, j: usize) -> bool
        ensures { (w : Worlds) → Tabled self.now w → result ≡ readers core w j }
    {
        self.has_end(Side::Reading, j)
    }

    // Whether pipe `j` has an end in use.
    fn is_open_pipe(&self, j: usize) -> bool
        ensures { result ≡ (end_in_use self.now Writing j || end_in_use self.now Reading j) }
    {
        self.has_end(Side::Writing, j) || self.has_end(Side::Reading, j)
    }

    // The lowest pipe with no end in use.
    pub(crate) fn free_pipe(&self) -> Option<usize>
        ensures seen { result ≡ lowest_free_pipe self.now }
        ensures within { IfSome result (λ j. j < self.now.sizes.pipes) }
    {
        (0..self.sizes.pipes as usize).find(|&j| !self.is_open_pipe(j))
    }

    // Whether in place `i` there is a child of `p`; process 0 is nobody's child.
    fn is_child(&self, p: usize, i: usize) -> bool
        requires there { i < 64 }
        ensures { result ≡ child_at self.now p i }
    {
        i != 0 && !self.processes[i].is_free() && usize::from(self.processes[i].parent) == p
    }

    // Whether `p` has a child.
    pub(crate) fn has_child(&self, p: usize) -> bool
        ensures { result ≡ list_any (child_at self.now p) (range_with_len 0 self.now.sizes.processes) }
    {
        (0..self.sizes.processes as usize).any(|i| self.is_child(p, i))
    }

    // Whether in place `i` there is a child of `p` that has left.
    fn is_left_child(&self, p: usize, i: usize) -> bool
        requires there { i < 64 }
        ensures { result ≡ (child_at self.now p i && is_left (place self.now i).state) }
    {
        self.is_child(p, i) && self.processes[i].has_left()
    }

    // The lowest place with a child of `p` that has left.
    pub(crate) fn left_child(&self, p: usize) -> Option<usize>
        ensures seen { result ≡ lowest_left_child self.now p }
        ensures found { IfSome result (λ i. (i < self.now.sizes.processes) × (is_left (place self.now i).state ≡ true)) }
    {
        (0..self.sizes.processes as usize).find(|&i| self.is_left_child(p, i))
    }

    // The number with which the process in place `i` has left. Apart from `left_child`, whose answer is a place alone, as the world's is.
    pub(crate) fn left_number(&self, i: usize) -> u8
        requires there { i < 64 }
        requires left { is_left (place self.now i).state ≡ true }
        ensures { result ≡ left_with (place self.now i).state }
    {
        self.processes[i].left_with().unwrap()
    }
}

// Whether this is an end of pipe `j`, on this side.
#[tactic(auto, unfolding(turns::specs::World::is_write_end, turns::specs::World::is_read_end))]
fn is_end(end: End, side: Side, j: usize) -> bool
    ensures { result ≡ is_end side j end }
{
    match (side, end) {
        (Side::Writing, End::WriteEnd(i)) | (Side::Reading, End::ReadEnd(i)) => usize::from(i) == j,
        _ => false,
    }
}
