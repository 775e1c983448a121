// What screens show.
ghost use Rattle.std.specs.Prelude.{◌≡◌, ℕ, ◌+◌, ◌^◌, ◌<◌, ◌≤◌, List, [], length, map, nat_le, All, is_ok, OnOk, OnErr};
ghost use Rattle.queues.specs.Screens.{Within, screen_of, total, Appended, Inserted};

use crate::{Full, Screens};

// The bytes of a row from `at` to before `end` move on, and these bytes come before them.
fn insert(row: &mut [u8], at: usize, end: usize, bytes: &[u8])
    requires forward { at ≤ end }
    requires room { end + length bytes.now ≤ length row.old }
    ensures { Inserted row.old row.new at end bytes.now }
{
    row.copy_within(at..end, at + bytes.len());
    row[at..at + bytes.len()].copy_from_slice(bytes);
}

// Each of these begins `n` bytes later.
fn move_on(begins: &mut [usize], n: usize)
    requires fits { All (λ b. b + n < 2 ^ 64) begins.old }
    ensures moved { begins.new ≡ map (λ b. b + n) begins.old }
{
    for begin in begins {
        *begin += n;
    }
}

impl Screens {
    // No screen shows anything.
    pub fn empty() -> Screens
        ensures within { (xs : List ℕ) → Within result xs }
        ensures empty { (xs : List ℕ) (t : ℕ) → screen_of result xs t ≡ [] }
    {
        Screens { begins: [0; 17] }
    }

    // What screen `t` shows.
    pub fn screen<'a>(&self, screens: &'a [u8], t: usize) -> &'a [u8]
        requires within { Within self.now screens.now }
        requires screen { t < 16 }
        ensures { result.now ≡ screen_of self.now screens.now t }
    {
        &screens[self.begins[t]..self.begins[t + 1]]
    }

    // There is room for `n` bytes more, on whatever screen.
    pub fn has_room(&self, screens: &[u8], n: usize) -> bool
        requires within { Within self.now screens.now }
        ensures { result ≡ nat_le (total self.now screens.now 16 + n) (length screens.now) }
    {
        n <= screens.len() - self.begins[16]
    }

    // Screen `t` shows these bytes too, behind the others; nothing changes if there is no room for them.
    pub fn append(&mut self, screens: &mut [u8], t: usize, bytes: &[u8]) -> Result<(), Full>
        requires within { Within self.old screens.old }
        requires screen { t < 16 }
        ensures done { is_ok result ≡ nat_le (total self.old screens.old 16 + length bytes.now) (length screens.old) }
        ensures within { Within self.new screens.new }
        ensures shown { OnOk result (Appended self.old screens.old self.new screens.new t bytes.now) }
        ensures nothing { OnErr result ((self.new ≡ self.old) × (screens.new ≡ screens.old)) }
    {
        if !self.has_room(screens, bytes.len()) {
            return Err(Full);
        }
        insert(screens, self.begins[t + 1], self.begins[16], bytes);
        move_on(&mut self.begins[t + 1..], bytes.len());
        Ok(())
    }
}
