// What is wrong with a list or a script, in words.
ghost use Rattle.std.specs.Prelude.{Some};
ghost use Rattle.inputs.specs.Messages.{reason_words, fault_words, wrong_words};

use crate::lists::{Fault, Reason};
use crate::scripts::Wrong;
use std::fmt;

impl fmt::Display for Reason {
    ghost output = { λ reason. Some (reason_words reason) };

    fn fmt<W: fmt::Write>(&self, f: &mut fmt::Formatter<W>) -> fmt::Result {
        match self {
            Reason::UnknownWord => write!(
                f,
                "this is no size and not put: write a line such as 'processes 2' or 'put 0 PATH'"
            ),
            Reason::NoNumber => write!(f, "a number from 0 to 4294967295 should stand here"),
            Reason::NoPath => write!(f, "a path should stand behind the number of the file"),
            Reason::TooManyWords => write!(f, "there are more words than belong here"),
            Reason::Twice(name) => write!(f, "{name} is given twice"),
            Reason::Missing(name) => write!(f, "{name} is missing"),
            Reason::FileTwice(n) => write!(f, "file {n} has contents already"),
            Reason::NoSuchFile(n) => write!(f, "there is no file {n}"),
        }
    }
}

impl fmt::Display for Fault {
    ghost output = { λ fault. Some (fault_words fault) };

    fn fmt<W: fmt::Write>(&self, f: &mut fmt::Formatter<W>) -> fmt::Result {
        write!(f, "{}: {}", self.line, self.reason)
    }
}

impl fmt::Display for Wrong {
    ghost output = { λ wrong. Some (wrong_words wrong) };

    fn fmt<W: fmt::Write>(&self, f: &mut fmt::Formatter<W>) -> fmt::Result {
        match self {
            Wrong::UnknownWord => write!(
                f,
                "this is no event: write a line such as 'ticks 20', 'key 0 k' or 'cut 3 255'"
            ),
            Wrong::NoNumber => write!(f, "a number from 0 to 4294967295 should stand here"),
            Wrong::NoByte => write!(f, "a number from 0 to 255 should stand here"),
            Wrong::NoKey => write!(
                f,
                "a key should stand here: one printable character, or a byte as #107"
            ),
            Wrong::TooManyWords => write!(f, "there are more words than belong here"),
        }
    }
}
