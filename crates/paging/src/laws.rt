// What follows for every state of the tables, stated once. Each function stands for a theorem: its contract.
ghost use Rattle.paging.specs.Laws.{FramesApart, BytesApart, FreeFrames, FindsPages};

// No two pages have the same frame, and none has a free one.
pub fn frames_apart_stands()
    ensures { FramesApart }
{}

// No two bytes of processes lie in the same place.
pub fn bytes_apart_stands()
    ensures { BytesApart }
{}

// If each process has all its pages or none, the free frames are as many as all processes that have none need.
pub fn free_frames_stands()
    ensures { FreeFrames }
{}

// A process that has no page finds all its pages.
pub fn finds_pages_stands()
    ensures { FindsPages }
{}
