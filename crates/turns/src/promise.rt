// The main promise for any system that owes what a start and one event owe: whoever carries out the world fills in one of these traits, and has the promise for
// every row of lives, whatever the programs and however power goes.
ghost use Rattle.turns.specs.Promise.{System, Owed, KeepsPromise, Functions, system_of, SameShown, ComesUp, ByWrites, HoldsAll};

// A system by what its functions' contracts say of its states; C is the type of its core's registers.
pub trait Machine<C> {
    ghost system: { System C Self };

    ghost owed: { Owed system };
}

// Every row of its lives is one of the world's lives, and every disc that a cut leaves is taken.
pub fn promise_is_kept<C, S: Machine<C>>()
    ensures { KeepsPromise S.Machine.system }
{}

// A system by functions of its states.
pub trait MachineByFunctions<C> {
    ghost functions: { Functions C Self };

    ghost owed: { Owed (system_of functions) };

    ghost changes: { ByWrites functions };

    ghost room: { HoldsAll functions };
}

// In every row of lives it shows what the world shows; what a cut leaves comes up; its disc changes by writes only; every list of files that fits has a disc.
pub fn functions_keep_promise<C, S: MachineByFunctions<C>>()
    ensures shown { SameShown S.MachineByFunctions.functions }
    ensures up { ComesUp S.MachineByFunctions.functions }
    ensures writes { ByWrites S.MachineByFunctions.functions }
    ensures all { HoldsAll S.MachineByFunctions.functions }
{}
