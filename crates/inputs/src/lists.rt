// Lists: the text from which discs are made. A line gives a size by its name, as `processes 2`, or the contents of a file, as `put 0 PATH`; `#` begins a comment.
ghost use Rattle.std.specs.Prelude.{◌≡◌, ◌+◌, ◌<◌, ◌≤◌, map, length, IfSome, IfOk};
ghost use Rattle.std.specs.Option.{unwrap_or};
ghost use Rattle.inputs.specs.Texts.{is_hash, found};
ghost use Rattle.inputs.specs.Lists.{part, span_at, size_entry, put_entry, entry_of, EndsBy, unsaid, Said, ReadIn, given, named, said, first_missing, first_strange, finished, list_of, PathsWithin};

use crate::lines::{Line, Lines, check_end};
use crate::numbers::number;
use turns::sizes::SizeName;
use turns::vocabulary::Sizes;

// A part of a text, from a place up to before another. No `&[u8]` is it, since a list is said by an equation of values, which one with a borrow in it has not.
#[derive(Clone, Copy, Debug, PartialEq, Eq)]
pub struct Span {
    pub from: usize,
    pub to: usize,
}

impl Span {
    // This part of a text.
    pub fn of(self, text: &[u8]) -> &[u8]
        requires order { self.from ≤ self.to }
        requires within { self.to ≤ length text.now }
        ensures { result.now ≡ part text.now self }
    {
        &text[self.from..self.to]
    }
}

// Where the contents of a file come from: the path in the list's text, and the line that it stands in.
#[derive(Clone, Copy, Debug, PartialEq, Eq)]
pub struct Put {
    pub line: usize,
    pub path: Span,
}

// What a list says: the sizes, and for each file where its contents come from; a file with none is empty. The lines lie beside the sizes, which are handed on whole.
// Arrays, and no Vec: reading a list asks for no memory, so that it cannot fail for want of any.
#[derive(Clone, Copy, Debug, PartialEq, Eq)]
pub struct DiscList {
    pub sizes: Sizes,
    // the line in which each size was given; `Sizes` is also what is on a disc, where there are no lines
    pub lines: [usize; 10],
    pub puts: [Option<Put>; 64],
}

// What is wrong with a list.
#[derive(Clone, Copy, Debug, PartialEq, Eq)]
pub enum Reason {
    UnknownWord,
    NoNumber,
    NoPath,
    TooManyWords,
    Twice(SizeName),
    Missing(SizeName),
    FileTwice(u32),
    NoSuchFile(u32),
}

// And where: its line; a size that is missing is missed behind the last.
#[derive(Clone, Copy, Debug, PartialEq, Eq)]
pub struct Fault {
    pub line: usize,
    pub reason: Reason,
}

// What a line says, if it says anything.
#[derive(Clone, Copy, Debug, PartialEq, Eq)]
pub(crate) enum Entry {
    Size(SizeName, u32),
    Put(u32, Span),
}

// What the lines so far have said: the sizes, the line in which each was given if it was, and the files, as arrays, as above. Nobody compares two.
#[derive(Clone, Copy)]
pub(crate) struct Draft {
    sizes: Sizes,
    lines: [Option<usize>; 10],
    puts: [Option<Put>; 64],
}

// A size: its name, a number, and nothing more.
fn size_entry(name: SizeName, value: Option<u32>, more: bool) -> Result<Option<Entry>, Reason>
    ensures { result ≡ size_entry name value more }
{
    let n = value.ok_or(Reason::NoNumber)?;
    check_end(!more, Reason::TooManyWords)?;
    Ok(Some(Entry::Size(name, n)))
}

// Contents: the number of a file, a path, and nothing more.
fn put_entry(file: Option<u32>, path: Span, more: bool) -> Result<Option<Entry>, Reason>
    ensures { result ≡ put_entry file path more }
{
    let f = file.ok_or(Reason::NoNumber)?;
    if path.from == path.to {
        return Err(Reason::NoPath);
    }
    check_end(!more, Reason::TooManyWords)?;
    Ok(Some(Entry::Put(f, path)))
}

// What a line says; its comment is not in there.
fn read_entry(line: Line) -> Result<Option<Entry>, Reason>
    ensures value { result ≡ entry_of line.entry.text.now line.entry.at line.entry.end }
    ensures within { EndsBy line.entry.end result }
{
    let Some(mut rest) = line.at_word() else {
        return Ok(None);
    };
    let text = line.text;
    let word = rest.take_word().of(text);
    let value = number(rest.take_word().of(text));
    if word == b"put".as_slice() {
        let path = rest.take_word();
        return put_entry(value, path, !rest.is_blank());
    }
    let name = SizeName::of(word).ok_or(Reason::UnknownWord)?;
    size_entry(name, value, !rest.is_blank())
}

impl Draft {
    // Nothing has been said yet. The zeros mean nothing, and `Sizes` has no Default, since a size has none.
    fn new() -> Draft
        ensures { result ≡ unsaid }
    {
        let sizes = Sizes {
            processes: 0,
            opens: 0,
            pipes: 0,
            handles: 0,
            memory: 0,
            pipe: 0,
            file: 0,
            files: 0,
            screens: 0,
            turn: 0,
        };
        Draft {
            sizes,
            lines: [None; 10],
            puts: [None; 64],
        }
    }

    // A size is given in a line; it may not have been given before.
    fn give(&mut self, line: usize, name: SizeName, n: u32) -> Result<(), Reason>
        ensures value { Said result (given self.old line name n) self.new }
    {
        let given = &mut self.lines[name.place()];
        if given.is_some() {
            return Err(Reason::Twice(name));
        }
        *given = Some(line);
        self.sizes.put(name, n);
        Ok(())
    }

    // The contents of a file are named in a line; they may not have been named before.
    fn name(&mut self, line: usize, file: u32, path: Span) -> Result<(), Reason>
        ensures value { Said result (named self.old line file path) self.new }
    {
        if file >= 64 {
            return Err(Reason::NoSuchFile(file));
        }
        let put = &mut self.puts[file as usize];
        if put.is_some() {
            return Err(Reason::FileTwice(file));
        }
        *put = Some(Put { line, path });
        Ok(())
    }

    // What a line says is added.
    fn add(&mut self, number: usize, line: Line) -> Result<(), Reason>
        ensures value { Said result (said self.old number (entry_of line.entry.text.now line.entry.at line.entry.end)) self.new }
        ensures within { EndsBy line.entry.end (entry_of line.entry.text.now line.entry.at line.entry.end) }
    {
        match read_entry(line)? {
            None => Ok(()),
            Some(Entry::Size(name, n)) => self.give(number, name, n),
            Some(Entry::Put(file, path)) => self.name(number, file, path),
        }
    }

    // What a line of a list says is added; what is wrong is wrong in that line.
    fn read(&mut self, number: usize, line: Line) -> Result<(), Fault>
        ensures value { ReadIn number result (said self.old number (entry_of line.entry.text.now line.entry.at (found is_hash line.entry.text.now line.entry.at line.entry.end))) self.new }
        ensures within { let end = found is_hash line.entry.text.now line.entry.at line.entry.end in EndsBy end (entry_of line.entry.text.now line.entry.at end) }
    {
        self.add(number, line.without_comment())
            .map_err(|reason| Fault {
                line: number,
                reason,
            })
    }

    // The first size that was not given.
    fn missing(&self) -> Option<SizeName>
        ensures { result ≡ first_missing self.now }
    {
        SizeName::ALL
            .iter()
            .copied()
            .find(|name| self.lines[name.place()].is_none())
    }

    // The number of the first file that has contents, though there is no such file.
    fn strange(&self) -> Option<usize>
        ensures value { result ≡ first_strange self.now }
        ensures within { IfSome result (λ f. f < 64) }
    {
        (0..64).find(|&f| self.puts[f].is_some() && f >= self.sizes.files as usize)
    }

    // The lines in which the sizes were given; 0 stands for none, which is not so behind `missing`, here and for a file in `finish`.
    fn given_in(&self) -> [usize; 10]
        ensures { result ≡ map (λ line. unwrap_or line 0) self.now.lines }
    {
        self.lines.map(|line| line.unwrap_or(0))
    }

    // What the list says, if nothing is missing; `line` is the one behind the last.
    fn finish(&self, line: usize) -> Result<DiscList, Fault>
        ensures { result ≡ finished self.now line }
    {
        if let Some(name) = self.missing() {
            let reason = Reason::Missing(name);
            return Err(Fault { line, reason });
        }
        if let Some(f) = self.strange() {
            let line = self.puts[f].map_or(0, |put| put.line);
            let reason = Reason::NoSuchFile(f as u32);
            return Err(Fault { line, reason });
        }
        Ok(DiscList {
            sizes: self.sizes,
            lines: self.given_in(),
            puts: self.puts,
        })
    }
}

// What a list says, or the first thing that is wrong with it; paths are parts of its text.
pub fn read_list(text: &[u8]) -> Result<DiscList, Fault>
    ensures value { result ≡ list_of text.now }
    ensures paths { IfOk result (λ l. PathsWithin (length text.now) l.puts) }
{
    let mut draft = Draft::new();
    let mut behind = 1;
    for (number, line) in Lines::of(text) {
        draft.read(number, line)?;
        behind = number + 1;
    }
    draft.finish(behind)
}
