// Rows of bytes in lent memory: queues, for keys and for pipes, and what screens show.
#![tactic(auto)]

ghost use Rattle.std.specs.Prelude.{◌≡◌, ◌<◌, ◌≤◌, slice_index};
ghost use Rattle.std.specs.List.Sorted.{IsNonDecreasing};

mod rings;
mod shown;

// A queue of bytes: a ring in a row of 4,096 bytes. Row `t` lies at byte 4,096 * t of what is lent for all queues of a kind.
// No VecDeque, and no field for the row: the board's memory is fixed, and lent at each call. So no equality either: equal fields are not equal bytes that wait.
#[derive(Clone, Copy, Debug)]
pub struct Queue {
    // where in its row the front is
    pub(crate) start: usize,
    // how many bytes wait
    pub(crate) length: usize,
    pub ghost in_row: { start < 4096 },
    pub ghost fits: { length ≤ 4096 },
}

// What up to 16 screens show, packed into one lent row: screen after screen, with no byte between them.
// No Vec for each screen, and no field for the row: the board's memory is fixed, and lent at each call. So it is a clause that they end within it, and there is
// no equality, as above.
#[derive(Clone, Copy, Debug)]
pub struct Screens {
    // where each screen begins, and last where all end
    pub(crate) begins: [usize; 17],
    pub ghost from_start: { slice_index begins 0 ≡ 0 },
    pub ghost in_order: { IsNonDecreasing begins },
}

// There is no room for more bytes on the screens.
#[derive(Clone, Copy, Debug, PartialEq, Eq)]
pub struct Full;
