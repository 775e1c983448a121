// What holds of the world, for every core: C is the type of its registers. Each function stands for a theorem, its contract; there is nothing to run.
ghost use Rattle.turns.specs.Corners.{Corners};
ghost use Rattle.turns.specs.Theorems.{StaysShown, SureIsPast, InParts, TickByTick, EndsWithFirst, IdleRounds, Apart, ByHandle, InOrder, FirstInFirstOut, TurnComes, KeepsShape, KeepsBytes};

// What is on a screen stays, and more comes behind it.
pub fn screens_only_grow<C>()
    ensures { StaysShown C }
{}

// What is sure never passes the number of events.
pub fn sure_is_past<C>()
    ensures { SureIsPast C }
{}

// A row of events in one part or in two is the same.
pub fn rows_come_in_parts<C>()
    ensures { InParts C }
{}

// n ticks are n times one tick.
pub fn ticks_add_up<C>()
    ensures { TickByTick C }
{}

// Once process 0 does not run, ticks do nothing.
pub fn ends_with_first<C>()
    ensures { EndsWithFirst C }
{}

// A round in which every place only waits changes nothing; n ticks from there are n modulo the number of places.
pub fn idle_rounds_skip<C>()
    ensures { IdleRounds C }
{}

// Nobody's memory, registers, handles or state change by somebody else's instruction, as long as it runs.
pub fn processes_are_apart<C>()
    ensures { Apart C }
{}

// A file changes only in a tick of a running process that has a handle on it.
pub fn files_change_by_handle<C>()
    ensures { ByHandle C }
{}

// An event leaves a pipe in use as it was, takes a front out of it for a reader, or puts a writer's bytes behind it.
pub fn pipes_are_in_order<C>()
    ensures { InOrder C }
{}

// What was in a pipe, followed by all that came in, is all that went out, followed by what is there.
pub fn first_in_first_out<C>()
    ensures { FirstInFirstOut C }
{}

// While process 0 runs each place has its turn again, within processes × turn ticks.
pub fn every_turn_comes<C>()
    ensures { TurnComes C }
{}

// In worlds that come about tables have the lengths of the sizes, handles in use lead to something, and everything keeps within its size.
pub fn shape_is_kept<C>()
    ensures { KeepsShape C }
{}

// In worlds that come about by a core that stores bytes, all is bytes.
pub fn bytes_stay_bytes<C>()
    ensures { KeepsBytes C }
{}

// The corners of the calls, each computed on a small world.
pub fn corners_are_so()
    ensures { Corners }
{}
