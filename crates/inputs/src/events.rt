// Rows of events as bytes: one input after the other, and where such a row is refused. A row and a place in it are two parameters: places are what is answered.
ghost use Rattle.std.specs.Prelude.{◌≡◌, ◌+◌, ◌^◌, ◌<◌, ◌≤◌, false, length, None};
ghost use Rattle.inputs.specs.Events.{after, input_at, broken, peeked, length_of, ticks_of, refusal_of, WrittenOut};

use turns::vocabulary::Input;

// At most so many ticks may a row have.
const MOST_TICKS: u64 = 0x1_0000_0000_0000;

// The input at `i`; none if there is no such kind, or it is cut short.
fn peek(events: &[u8], i: usize) -> Option<Input>
    requires within { i < length events.now }
    ensures { result ≡ peeked events.now i }
{
    match (events[i], &events[i + 1..]) {
        (0, [a, b, c, d, ..]) => Some(Input::Ticks(u32::from_le_bytes([*a, *b, *c, *d]))),
        (1, [screen, key, ..]) => Some(Input::Key(*screen, *key)),
        (2, [a, b, c, d, fill, ..]) => Some(Input::Cut(
            u32::from_le_bytes([*a, *b, *c, *d]),
            *fill,
        )),
        _ => None,
    }
}

// How many bytes an input has.
fn length_of(input: Input) -> usize
    ensures { result ≡ length_of input }
{
    match input {
        Input::Ticks(_) => 5,
        Input::Key(_, _) => 3,
        Input::Cut(_, _) => 6,
    }
}

// How many ticks an input brings.
fn ticks_of(input: Input) -> u32
    ensures value { result ≡ ticks_of input }
    ensures bound { result < 2 ^ 32 }
{
    match input {
        Input::Ticks(n) => n,
        Input::Key(_, _) | Input::Cut(_, _) => 0,
    }
}

// Where the input at `i` ends.
pub fn after_input(events: &[u8], i: usize) -> usize
    requires within { i < length events.now }
    requires whole { broken events.now i ≡ false }
    ensures value { result ≡ after events.now i }
    ensures within { result ≤ length events.now }
    ensures more { i < result }
{
    i + length_of(read_input(events, i))
}

// The input at `i`.
pub fn read_input(events: &[u8], i: usize) -> Input
    requires within { i < length events.now }
    requires whole { broken events.now i ≡ false }
    ensures { result ≡ input_at events.now i }
{
    peek(events, i).unwrap()
}

// The first byte of the first event that is refused; none if the row is well-formed, and then it is just its inputs, written out one after the other.
pub fn refused(events: &[u8]) -> Option<usize>
    ensures place { result ≡ refusal_of events.now }
    ensures whole { result ≡ None → WrittenOut events.now }
{
    let mut i = 0;
    let mut total: u64 = 0;
    // `i` is the answer, and goes on by the length of the input that was read there: an iterator over places and inputs would be a type for this one loop.
    while i < events.len() {
        let Some(input) = peek(events, i) else {
            return Some(i);
        };
        total += ticks_of(input) as u64;
        if total > MOST_TICKS {
            return Some(i);
        }
        i += length_of(input);
    }
    None
}
