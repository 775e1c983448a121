// The ten sizes by their names.
ghost use Rattle.std.specs.Prelude.{◌≡◌, ◌<◌, Some};
ghost use Rattle.turns.specs.Names.{place_of, name_at, with_size, size_named, size_word};

use crate::vocabulary::Sizes;
use std::fmt;

// Which of the ten sizes, in the order in which they stand on a disc.
#[derive(Clone, Copy, Debug, PartialEq, Eq)]
pub enum SizeName {
    Processes,
    Opens,
    Pipes,
    Handles,
    Memory,
    Pipe,
    File,
    Files,
    Screens,
    Turn,
}

impl SizeName {
    pub const ALL: [SizeName; 10] = [
        SizeName::Processes,
        SizeName::Opens,
        SizeName::Pipes,
        SizeName::Handles,
        SizeName::Memory,
        SizeName::Pipe,
        SizeName::File,
        SizeName::Files,
        SizeName::Screens,
        SizeName::Turn,
    ];

    // Its place in that order.
    pub fn place(self) -> usize
        ensures value { result ≡ place_of self }
        ensures within { result < 10 }
    {
        self as usize
    }

    // The size at a place of that order; behind the last it is the last, so that it cannot fail.
    pub fn at(place: usize) -> SizeName
        ensures { result ≡ name_at place }
    {
        SizeName::ALL.get(place).copied().unwrap_or(SizeName::Turn)
    }

    // The word by which it goes in a list.
    pub fn word(self) -> &'static str
        ensures { result.now ≡ size_word self }
    {
        match self {
            SizeName::Processes => "processes",
            SizeName::Opens => "opens",
            SizeName::Pipes => "pipes",
            SizeName::Handles => "handles",
            SizeName::Memory => "memory",
            SizeName::Pipe => "pipe",
            SizeName::File => "file",
            SizeName::Files => "files",
            SizeName::Screens => "screens",
            SizeName::Turn => "turn",
        }
    }

    // The size that goes by this word.
    pub fn of(word: &[u8]) -> Option<SizeName>
        ensures { result ≡ size_named word.now }
    {
        SizeName::ALL
            .iter()
            .copied()
            .find(|name| word == name.word().as_bytes())
    }
}

impl fmt::Display for SizeName {
    ghost output = { λ name. Some (size_word name) };

    fn fmt<W: fmt::Write>(&self, f: &mut fmt::Formatter<W>) -> fmt::Result {
        write!(f, "{}", self.word())
    }
}

impl Sizes {
    // The size of this name becomes n.
    pub fn put(&mut self, name: SizeName, n: u32)
        ensures { self.new ≡ with_size name n self.old }
    {
        match name {
            SizeName::Processes => self.processes = n,
            SizeName::Opens => self.opens = n,
            SizeName::Pipes => self.pipes = n,
            SizeName::Handles => self.handles = n,
            SizeName::Memory => self.memory = n,
            SizeName::Pipe => self.pipe = n,
            SizeName::File => self.file = n,
            SizeName::Files => self.files = n,
            SizeName::Screens => self.screens = n,
            SizeName::Turn => self.turn = n,
        }
    }
}
