// Calls that are carried out in the tables alone.
ghost use Rattle.std.specs.Prelude.{◌≡◌, ℕ, length};
ghost use Rattle.turns.specs.World.{forks, waits, closes, copies, opens, is_running};
ghost use Rattle.rv32.specs.Act.{core};
ghost use Rattle.processes.specs.Tabled.{Kept, Tabled, Worlds, RunsAt, Came, place};

use crate::Tables;
use crate::reading::end_named;
use turns::vocabulary::{End, OpenThing, Outcome};

// The answer of a call that is turned down: the number that the program finds in its register. Each call says itself where it is turned down: with `?` it would
// be two functions, one of which only answers so.
const NO: u32 = 4_294_967_295;

#[tactic(auto, using(crate::proofs::Called::calls), unfolding(turns::specs::World::is_nothing))]
impl Tables {
    // Fork: the lowest free place gets a child of `p`, which runs; the answer is its place + 1. Its memory is the caller's to copy.
    pub fn fork(&mut self, p: usize) -> Outcome
        requires runs { RunsAt self.old p }
        ensures sizes { self.new.sizes ≡ self.old.sizes }
        ensures done { (w : Worlds) → Tabled self.old w → Came self.new result (forks core self.old.sizes w p) }
    {
        let Some(q) = self.free_process() else {
            return Outcome::Answer(NO);
        };
        self.begin_child(p, q);
        Outcome::Answer(q as u32 + 1)
    }

    // Wait: of the children of `p` that have left the one in the lowest place becomes free, and its number and place are the answer; while all run it stays.
    pub fn wait(&mut self, p: usize) -> Outcome
        ensures sizes { self.new.sizes ≡ self.old.sizes }
        ensures running { (q : ℕ) → is_running (place self.new q).state ≡ is_running (place self.old q).state }
        ensures done { (w : Worlds) → Tabled self.old w → Came self.new result (waits core self.old.sizes w p) }
    {
        if !self.has_child(p) {
            return Outcome::Answer(NO);
        }
        let Some(i) = self.left_child(p) else {
            return Outcome::Stays;
        };
        let number = self.left_number(i);
        self.make_free(i);
        Outcome::Answer(number as u32 * 256 + i as u32 + 1)
    }

    // Close: handle `h` of `p`, which runs, is free.
    pub fn close(&mut self, p: usize, h: u32) -> Outcome
        requires runs { RunsAt self.old p }
        ensures kept { Kept self.old self.new }
        ensures done { (w : Worlds) → Tabled self.old w → Came self.new result (closes core w p h) }
    {
        let h = h as usize;
        if !self.has_handle(p, h) {
            return Outcome::Answer(NO);
        }
        self.set_handle(p, h, None);
        Outcome::Answer(0)
    }

    // Copy: handle `g` of `p`, which runs, is what `h` is, from now on.
    pub fn copy(&mut self, p: usize, h: u32, g: u32) -> Outcome
        requires runs { RunsAt self.old p }
        ensures kept { Kept self.old self.new }
        ensures done { (w : Worlds) → Tabled self.old w → Came self.new result (copies core self.old.sizes w p h g) }
    {
        if !self.has_handle(p, h as usize) {
            return Outcome::Answer(NO);
        }
        if g >= self.sizes.handles {
            return Outcome::Answer(NO);
        }
        let to = self.handle_of(p, h as usize);
        self.set_handle(p, g as usize, to);
        Outcome::Answer(g)
    }

    // Open: the lowest free handle of `p`, which runs, leads to the lowest free open thing, for the file or the screen of this name, from its beginning.
    pub fn open(&mut self, p: usize, name: u32) -> Outcome
        requires runs { RunsAt self.old p }
        ensures kept { Kept self.old self.new }
        ensures done { (w : Worlds) → Tabled self.old w → length w.files ≡ self.old.sizes.files → Came self.new result (opens core self.old.sizes w p name) }
    {
        let end = end_named(self.sizes, name);
        if end == End::Nothing {
            return Outcome::Answer(NO);
        }
        let Some(k) = self.free_open(0) else {
            return Outcome::Answer(NO);
        };
        let Some(h) = self.free_handle(p, 0) else {
            return Outcome::Answer(NO);
        };
        self.set_open(k, OpenThing { end, at: 0 });
        self.set_handle(p, h, Some(k as u8));
        Outcome::Answer(h as u32)
    }
}
