// Turns: whose it is, and how much of it is over.
ghost use Rattle.std.specs.Prelude.{◌≡◌, ◌<◌, ◌≤◌};
ghost use Rattle.turns.specs.World.{after_turn, passes, spends};
ghost use Rattle.processes.specs.Tabled.{Follows};

use crate::Tables;

impl Tables {
    // The turn passes on.
    pub fn pass(&mut self)
        ensures { Follows self.old self.new (passes self.old.sizes) }
    {
        self.turn = next_turn(self.sizes.processes, self.turn);
        self.used = 0;
    }

    // One instruction of the turn is over.
    pub fn spend(&mut self)
        ensures { Follows self.old self.new (spends self.old.sizes) }
    {
        if self.used + 1 < self.sizes.turn {
            self.used += 1;
        } else {
            self.pass();
        }
    }
}

// The place behind this one; after the last comes place 0.
#[tactic(auto, unfolding(octets::specs::Rows::pick))]
fn next_turn(places: u32, turn: u8) -> u8
    requires few { places ≤ 64 }
    requires there { turn < places }
    ensures next { result ≡ after_turn places turn }
    ensures within { result < places }
{
    if u32::from(turn) + 1 < places {
        turn + 1
    } else {
        0
    }
}
