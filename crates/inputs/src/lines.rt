// A text line by line, and a line word by word. No equality: nobody compares lines.
ghost use Rattle.std.specs.Prelude.{◌≡◌, ◌+◌, ◌≤◌, length};
ghost use Rattle.inputs.specs.Texts.{is_blank, at_end};

use crate::lists::Span;

fn is_blank(b: u8) -> bool
    ensures { result ≡ is_blank b }
{
    matches!(b, b' ' | b'\t' | b'\r')
}

// Nothing more may stand in a line.
pub(crate) fn check_end<E: Drop>(over: bool, wrong: E) -> Result<(), E>
    ensures { result ≡ at_end over wrong }
{
    if over { Ok(()) } else { Err(wrong) }
}

// What is left of a line: what a text has from a place up to before another.
#[derive(Clone, Copy)]
pub(crate) struct Line<'a> {
    pub(crate) text: &'a [u8],
    pub(crate) at: usize,
    pub(crate) end: usize,
    pub(crate) ghost order: { at ≤ end },
    pub(crate) ghost within: { end ≤ length text.now },
}

impl<'a> Line<'a> {
    ghost use Rattle.std.specs.Prelude.{◌≡◌, ◌≤◌, ◌==◌, ℕ, Bool};
    ghost use Rattle.inputs.specs.Walks.{first, AtWord};
    ghost use Rattle.inputs.specs.Texts.{is_blank, in_word, is_newline, is_hash, found};
    ghost use Rattle.inputs.specs.Lists.{span_at};

    // The first place where a byte meets a test.
    fn find<F: Fn(u8) -> bool>(&self, test: F) -> Option<usize>
        requires callable { (state : F) (b : _) → F.pre state b }
        ensures { (p : ℕ → Bool) → ((b : ℕ) (r : Bool) → F.post test b r → r ≡ p b) → result ≡ first p self.now }
    {
        (self.at..self.end).find(|&i| test(self.text[i]))
    }

    // The next word; behind the last it has no bytes, and stands at the line's end. No Option: where the line ends is the answer too.
    pub(crate) fn word(&self) -> Span
        ensures place { result ≡ span_at self.now.text.now self.now.at self.now.end }
        ensures behind { self.now.at ≤ result.from }
        ensures order { result.from ≤ result.to }
        ensures within { result.to ≤ self.now.end }
    {
        let text = self.text;
        let end = self.end;
        let from = self.find(|b| !is_blank(b)).unwrap_or(end);
        let rest = Line {
            text,
            at: from,
            end,
        };
        let to = rest.find(|b| is_blank(b)).unwrap_or(end);
        Span { from, to }
    }

    // The next word is taken from the line.
    pub(crate) fn take_word(&mut self) -> Span
        ensures place { result ≡ span_at self.old.text.now self.old.at self.old.end }
        ensures order { result.from ≤ result.to }
        ensures within { result.to ≤ self.old.end }
        ensures text { self.new.text.now ≡ self.old.text.now }
        ensures at { self.new.at ≡ result.to }
        ensures end { self.new.end ≡ self.old.end }
    {
        let word = self.word();
        self.at = word.to;
        word
    }

    // The line from its next word on, if it has one.
    pub(crate) fn at_word(self) -> Option<Line<'a>>
        ensures { AtWord self.entry result }
    {
        let text = self.text;
        let end = self.end;
        let at = self.find(|b| !is_blank(b))?;
        Some(Line { text, at, end })
    }

    // Whether only blanks are left.
    pub(crate) fn is_blank(&self) -> bool
        ensures { result ≡ ((span_at self.now.text.now self.now.at self.now.end).from == self.now.end) }
    {
        self.word().from == self.end
    }

    // The line up to its comment.
    pub(crate) fn without_comment(self) -> Line<'a>
        ensures text { result.text.now ≡ self.entry.text.now }
        ensures at { result.at ≡ self.entry.at }
        ensures end { result.end ≡ found is_hash self.entry.text.now self.entry.at self.entry.end }
    {
        let text = self.text;
        let at = self.at;
        let end = self.find(|b| b == b'#').unwrap_or(self.end);
        Line { text, at, end }
    }
}

// The lines of a text from a place on, each with its number, which goes with the place: whoever has read on wants the number behind the last line too.
#[derive(Clone, Copy)]
pub(crate) struct Lines<'a> {
    pub(crate) text: &'a [u8],
    pub(crate) at: usize,
    pub(crate) number: usize,
    pub(crate) ghost count: { number ≤ at + 1 },
    pub(crate) ghost within: { at ≤ length text.now + 1 },
}

impl<'a> Lines<'a> {
    ghost use Rattle.std.specs.Prelude.{◌≡◌};

    pub(crate) fn of(text: &'a [u8]) -> Lines<'a>
        ensures text { result.text.now ≡ text.now }
        ensures at { result.at ≡ 0 }
        ensures number { result.number ≡ 1 }
    {
        Lines {
            text,
            at: 0,
            number: 1,
        }
    }
}

impl<'a> Iterator for Lines<'a> {
    ghost use Rattle.std.specs.Prelude.{◌-◌, length};
    ghost use Rattle.std.specs.Iterator.{at_most};
    ghost use Rattle.inputs.specs.Walks.{NextLine};

    type Item = (usize, Line<'a>);

    ghost next_gives = { NextLine };

    ghost remaining = { λ lines. at_most (length lines.text.now - lines.at) };

    fn next(&mut self) -> Option<(usize, Line<'a>)> {
        let text = self.text;
        let at = self.at;
        if at >= text.len() {
            return None;
        }
        let end = text.len();
        let rest = Line { text, at, end };
        let end = rest.find(|b| b == b'\n').unwrap_or(end);
        let number = self.number;
        self.at = end + 1;
        self.number = number + 1;
        Some((number, Line { text, at, end }))
    }
}
