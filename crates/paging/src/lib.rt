// The memory of processes, in frames of 4,096 bytes of lent memory. The first 80 frames hold the page tables and a stack of free frames; the others hold pages.
// What a process sees is one row of bytes, `byte_of` process and address (specs/Tables); no caller speaks of tables.
//
// The lent frames, and a process's number, stand beside `Paging` in every method, and not in a struct with it: the board's state goes by value, which a value with
// lent memory in it may not.
#![tactic(auto)]

mod accesses;
mod fills;
mod frames;
pub mod laws;
mod lives;
mod runs;
mod slots;
mod stack;
mod tables;

// Which processes have pages. A process has all its pages while it runs, and none else; in between, as it begins or ends, it has the first few.
#[derive(Clone, Copy, Debug, PartialEq, Eq)]
pub struct Paging {
    // how many frames are free: the height of the stack that holds their numbers
    pub(crate) free: u32,
    // how many pages each process has: an array, since a board has fixed memory and no heap
    pub(crate) pages: [u32; 64],
}

// The page of a process that was used last, and where its frame begins, so that most accesses walk no table. No Option: `none` promises a page behind all, and
// a hit is one comparison.
#[derive(Clone, Copy, Debug, PartialEq, Eq)]
pub struct Cache {
    pub(crate) page: u32,
    pub(crate) base: usize,
}
