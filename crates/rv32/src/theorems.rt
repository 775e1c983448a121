// Theorems about the core: each is the contract of a function that does nothing else.
ghost use Rattle.rv32.specs.Programs.{HelloShows, StrayEnds};
ghost use Rattle.rv32.specs.Steps.{Steps};

// An instruction may be carried out in steps, where the memory is no row of bytes.
pub fn steps_stand()
    ensures { Steps }
{}

// Two programs do on the blackboard what they should: one shows a text, one strays beyond its memory.
pub fn programs_stand()
    ensures { (HelloShows) × (StrayEnds) }
{}
