// The numbers and words by which calls, inputs and states go.
ghost use Rattle.std.specs.Prelude.{◌≡◌, Some};
ghost use Rattle.turns.specs.Numbers.{call_number, input_kind, state_words};

use crate::vocabulary::{Call, Input, State};
use std::fmt;

impl Call {
    // The number by which a program makes this call: the calling convention has numbers. No From, since the number leaves the arguments out.
    pub fn number(&self) -> Option<u8>
        ensures { result ≡ call_number self.now }
    {
        match self {
            Call::Leave(_) => Some(0),
            Call::Fork => Some(1),
            Call::Wait => Some(2),
            Call::Exec(_) => Some(3),
            Call::Open(_) => Some(4),
            Call::Close(_) => Some(5),
            Call::Copy(_, _) => Some(6),
            Call::Pipe(_) => Some(7),
            Call::Read(_, _, _) => Some(8),
            Call::Write(_, _, _) => Some(9),
            Call::Save => Some(10),
            Call::End(_) => Some(11),
            Call::Unknown => None,
        }
    }
}

impl Input {
    // The kind of an input in a row of bytes: the format has numbers. No From, as above.
    pub fn kind(&self) -> u8
        ensures { result ≡ input_kind self.now }
    {
        match self {
            Input::Ticks(_) => 0,
            Input::Key(_, _) => 1,
            Input::Cut(_, _) => 2,
        }
    }
}

impl fmt::Display for State {
    ghost output = { λ s. Some (state_words s) };

    fn fmt<W: fmt::Write>(&self, f: &mut fmt::Formatter<W>) -> fmt::Result {
        match self {
            State::Free => write!(f, "free"),
            State::Runs => write!(f, "runs"),
            State::Left(n) => write!(f, "left {n}"),
        }
    }
}
