// Numbers in decimal digits.
ghost use Rattle.std.specs.Prelude.{◌≡◌};
ghost use Rattle.inputs.specs.Texts.{with_digit, number_of};

// A number with one decimal digit more; none if it is no digit, or 32 bits do not hold the number.
fn with_digit(n: u32, b: u8) -> Option<u32>
    ensures { result ≡ with_digit n b }
{
    let digit = (b as char).to_digit(10)?;
    n.checked_mul(10)?.checked_add(digit)
}

// The number that a word writes in decimal digits. No `parse`, which takes a `+` too.
pub(crate) fn number(word: &[u8]) -> Option<u32>
    ensures { result ≡ number_of word.now }
{
    if word.is_empty() {
        return None;
    }
    let mut n = 0;
    for &b in word {
        n = with_digit(n, b)?;
    }
    Some(n)
}
