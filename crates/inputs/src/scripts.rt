// Scripts: rows of events as text. A line is `ticks 20`, `key 0 k` (one printable character, or a byte by its number, as `#107`) or `cut 3 255`; `#` begins a
// comment.
ghost use Rattle.std.specs.Prelude.{◌≡◌, ◌++◌, OnOk};
ghost use Rattle.turns.specs.Numbers.{input_bytes};
ghost use Rattle.inputs.specs.Scripts.{byte_of, key_of, is_over, ticks_line, key_line, cut_line, line_of, in_line, ScriptRead};
ghost use Rattle.inputs.specs.declared.scripts.ScriptError.TheVariants.{NoMemory};

use crate::lines::{Line, Lines, check_end};
use crate::numbers::number;
use std::alloc::{AllocError, Global};
use turns::vocabulary::Input;

// What is wrong with a line of a script. It is no part of `Reason`, of which it has three names: one of these has other words.
#[derive(Clone, Copy, Debug, PartialEq, Eq)]
pub enum Wrong {
    UnknownWord,
    NoNumber,
    NoByte,
    NoKey,
    TooManyWords,
}

// The byte whose number a word writes.
fn byte_of(word: &[u8]) -> Option<u8>
    ensures { result ≡ byte_of word.now }
{
    u8::try_from(number(word)?).ok()
}

// The key that a word stands for: itself, if it is one printable character; else, behind a `#`, the number of a byte.
fn key_of(word: &[u8]) -> Option<u8>
    ensures { result ≡ key_of word.now }
{
    match word {
        [key @ b'!'..=b'~'] => Some(*key),
        [b'#', number @ ..] => byte_of(number),
        _ => None,
    }
}

// Whether there is no more in a line: only blanks, or a comment.
fn is_over(line: &Line) -> bool
    ensures { result ≡ is_over line.now.text.now line.now.at line.now.end }
{
    let next = line.word().from;
    next == line.end || line.text[next] == b'#'
}

// A number of ticks, and nothing more.
fn ticks_line(n: Option<u32>, over: bool) -> Result<Option<Input>, Wrong>
    ensures { result ≡ ticks_line n over }
{
    let n = n.ok_or(Wrong::NoNumber)?;
    check_end(over, Wrong::TooManyWords)?;
    Ok(Some(Input::Ticks(n)))
}

// A key: a screen, what is typed there, and nothing more.
fn key_line(screen: Option<u8>, key: Option<u8>, over: bool) -> Result<Option<Input>, Wrong>
    ensures { result ≡ key_line screen key over }
{
    let screen = screen.ok_or(Wrong::NoByte)?;
    let key = key.ok_or(Wrong::NoKey)?;
    check_end(over, Wrong::TooManyWords)?;
    Ok(Some(Input::Key(screen, key)))
}

// A cut: how many writes are done, the byte that fills the block of the next, and nothing more.
fn cut_line(done: Option<u32>, fill: Option<u8>, over: bool) -> Result<Option<Input>, Wrong>
    ensures { result ≡ cut_line done fill over }
{
    let done = done.ok_or(Wrong::NoNumber)?;
    let fill = fill.ok_or(Wrong::NoByte)?;
    check_end(over, Wrong::TooManyWords)?;
    Ok(Some(Input::Cut(done, fill)))
}

// What a line says.
fn read_line(line: Line) -> Result<Option<Input>, Wrong>
    ensures { result ≡ line_of line.entry.text.now line.entry.at line.entry.end }
{
    if is_over(&line) {
        return Ok(None);
    }
    let text = line.text;
    let mut rest = line;
    let word = rest.take_word().of(text);
    let second = rest.take_word().of(text);
    if word == b"ticks".as_slice() {
        return ticks_line(number(second), is_over(&rest));
    }
    let third = rest.take_word().of(text);
    let over = is_over(&rest);
    match word {
        b"key" => key_line(byte_of(second), key_of(third), over),
        b"cut" => cut_line(number(second), byte_of(third), over),
        _ => Err(Wrong::UnknownWord),
    }
}

// Why a script is not read: a line is wrong, or there is no memory for its events.
#[derive(Clone, Copy, Debug, PartialEq, Eq)]
pub enum ScriptError {
    Line(usize, Wrong),
    NoMemory,
}

impl From<AllocError> for ScriptError {
    ghost from_gives = { λ _ e. e ≡ NoMemory };

    fn from(_e: AllocError) -> ScriptError {
        ScriptError::NoMemory
    }
}

// What the line with this number says; what is wrong is wrong in that line.
fn read_numbered(number: usize, line: Line) -> Result<Option<Input>, ScriptError>
    ensures { result ≡ in_line number (line_of line.entry.text.now line.entry.at line.entry.end) }
{
    read_line(line).map_err(|wrong| ScriptError::Line(number, wrong))
}

// The bytes of an input are put behind others: its kind, which is a number of the format, and its numbers.
fn push_input(out: &mut Vec<u8>, input: Input) -> Result<(), AllocError>
    ensures { OnOk result (out.new.items ≡ out.old.items ++ input_bytes input) }
{
    match input {
        Input::Ticks(n) => {
            let [a, b, c, d] = n.to_le_bytes();
            out.extend_from_slice(&[0, a, b, c, d])
        }
        Input::Key(t, b) => out.extend_from_slice(&[1, t, b]),
        Input::Cut(m, x) => {
            let [a, b, c, d] = m.to_le_bytes();
            out.extend_from_slice(&[2, a, b, c, d, x])
        }
    }
}

// The events of a script as a row of bytes, or the first line that is wrong.
pub fn read_script(heap: Global, text: &[u8]) -> Result<Vec<u8>, ScriptError>
    ensures { ScriptRead text.now result }
{
    let mut out = Vec::new(heap);
    for (number, line) in Lines::of(text) {
        let Some(input) = read_numbered(number, line)? else {
            continue;
        };
        push_input(&mut out, input)?;
    }
    Ok(out)
}
