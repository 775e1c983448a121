// Numbers in bytes, the low byte first, over lent slices.
#![tactic(auto)]

ghost use Rattle.std.specs.Prelude.{◌≡◌, ℕ, ◌+◌, ◌≤◌, List, length, slice_index};
ghost use Rattle.octets.specs.Words.{byte_from, half_from, word_from, byte_bytes, half_bytes, word_bytes, NumberLaws};
ghost use Rattle.octets.specs.Kinds.{byte_laws, half_laws, word_laws};
ghost use Rattle.octets.specs.Rows.{over};

// A number that stands in a row of bytes. It is read and written byte by byte, so that each line says which byte stands where.
pub trait Number: Copy {
    // how many bytes it has
    ghost size: { ℕ };

    // the number that stands at a place, where a function says which byte stands at each
    ghost from: { (ℕ → ℕ) → ℕ → Self };

    ghost bytes: { Self → List ℕ };

    // The number at a place.
    fn read(row: &[u8], at: usize) -> Self
        requires within { at + size ≤ length row.now }
        ensures { result ≡ from (slice_index row.now) at };

    // The number is put at a place; all other bytes stay.
    fn write(self, row: &mut [u8], at: usize)
        requires within { at + size ≤ length row.old }
        ensures row { row.new ≡ over row.old at (bytes self) }
        ensures read { from (slice_index row.new) at ≡ self };

    ghost laws: { NumberLaws size from bytes };
}

impl Number for u8 {
    ghost size = { 1 };

    ghost from = { byte_from };

    ghost bytes = { byte_bytes };

    fn read(row: &[u8], at: usize) -> u8 {
        row[at]
    }

    fn write(self, row: &mut [u8], at: usize) {
        row[at] = self;
    }

    ghost laws = { byte_laws };
}

impl Number for u16 {
    ghost size = { 2 };

    ghost from = { half_from };

    ghost bytes = { half_bytes };

    fn read(row: &[u8], at: usize) -> u16 {
        u16::from_le_bytes([row[at], row[at + 1]])
    }

    fn write(self, row: &mut [u8], at: usize) {
        let [low, high] = self.to_le_bytes();
        row[at] = low;
        row[at + 1] = high;
    }

    ghost laws = { half_laws };
}

impl Number for u32 {
    ghost size = { 4 };

    ghost from = { word_from };

    ghost bytes = { word_bytes };

    fn read(row: &[u8], at: usize) -> u32 {
        u32::from_le_bytes([row[at], row[at + 1], row[at + 2], row[at + 3]])
    }

    fn write(self, row: &mut [u8], at: usize) {
        let [a, b, c, d] = self.to_le_bytes();
        row[at] = a;
        row[at + 1] = b;
        row[at + 2] = c;
        row[at + 3] = d;
    }

    ghost laws = { word_laws };
}
