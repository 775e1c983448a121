// The words that the blackboard and the machine share. They are declared once, here: the world's definitions (specs/World) use these very types, so that
// nothing has to be translated between what is promised and what is carried out.

// How many there are of each thing, and how large each is; all fixed on the disc.
#[derive(Clone, Copy, Debug, PartialEq, Eq)]
pub struct Sizes {
    // places for processes: 1 to 64
    pub processes: u32,
    // open things: 1 to 256
    pub opens: u32,
    // pipes: 0 to 64
    pub pipes: u32,
    // handles of a process: 3 to 16
    pub handles: u32,
    // bytes of a process's memory: 4,096 to 1,048,576, a multiple of 4,096
    pub memory: u32,
    // bytes that a pipe holds, and the keys of a screen: 1 to 4,096
    pub pipe: u32,
    // bytes that a file may have: 0 to 262,144
    pub file: u32,
    // files: 1 to 64
    pub files: u32,
    // screens: 1 to 16
    pub screens: u32,
    // instructions of a turn: 1 to 65,535
    pub turn: u32,
}

// Free, Nothing and Unknown below are cases and no Option: the world's definitions, which keep their meaning, speak of these very types.

// What there is in a place for processes: nobody, a process that runs, or one that has left with a number and waits to be waited for.
#[derive(Clone, Copy, Debug, PartialEq, Eq)]
pub enum State {
    Free,
    Runs,
    Left(u8),
}

// What an open thing is an end of: nothing, a screen with its keys, a file, or a pipe: its end to write into, its end to read from.
#[derive(Clone, Copy, Debug, PartialEq, Eq)]
pub enum End {
    Nothing,
    Screen(u8),
    File(u8),
    WriteEnd(u8),
    ReadEnd(u8),
}

// What handles lead to, and where in its file the next byte is read or written. Handles that were copied, also by a fork, share it.
#[derive(Clone, Copy, Debug, PartialEq, Eq)]
pub struct OpenThing {
    pub end: End,
    pub at: u32,
}

// What a program asks for. The numbers are handles, names of files and screens, addresses and counts, as the program gave them.
#[derive(Clone, Copy, Debug, PartialEq, Eq)]
pub enum Call {
    Leave(u32),
    Fork,
    Wait,
    Exec(u32),
    Open(u32),
    Close(u32),
    Copy(u32, u32),
    Pipe(u32),
    Read(u32, u32, u32),
    Write(u32, u32, u32),
    Save,
    End(u32),
    // a number that no call has
    Unknown,
}

// What becomes of a call: it has an answer; it has none, since the process left or began anew; or it stays, to be made again in the next turn.
#[derive(Clone, Copy, Debug, PartialEq, Eq)]
pub enum Outcome {
    Answer(u32),
    Gone,
    Stays,
}

// What happens to the machine: one instruction's time passes, or a byte is typed at a screen.
#[derive(Clone, Copy, Debug, PartialEq, Eq)]
pub enum Event {
    Tick,
    Key(u8, u8),
}

// What is fed to the machine: a number of ticks; a byte typed at a screen; or a power cut, after so many writes to the disc of the last event, with the byte that
// fills the block of the next.
#[derive(Clone, Copy, Debug, PartialEq, Eq)]
pub enum Input {
    Ticks(u32),
    Key(u8, u8),
    Cut(u32, u8),
}
