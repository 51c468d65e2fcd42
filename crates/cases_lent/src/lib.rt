// What the test program lends to a call, words or bytes.
#![tactic(auto)]

ghost use Rattle.std.specs.Prelude.{◌≡◌, ◌≤◌, length};
ghost use Rattle.cases_lent.specs.Used.{filling, filling_byte, used as usedOf};

// A word, or a byte, that is lent.
pub trait Lent: PartialEq + Copy {
    ghost FILLING: { Self };

    // What each holds before the call. An answer may hold it too: as its last one it counts as one that stayed.
    const FILLING: Self;
}

impl Lent for u32 {
    ghost FILLING = { filling };

    // Its kind is that of a key word, but its payload is above 1, as in no answer.
    const FILLING: u32 = 3318072773;
}

impl Lent for u8 {
    ghost FILLING = { filling_byte };

    const FILLING: u8 = 197;
}

// How many there are up to the last one that holds another. The second promise follows from the first.
pub fn used<T: Lent>(lent: &[T]) -> usize
    ensures { (result ≡ usedOf T.eq T.FILLING lent.now) × (result ≤ length lent.now) }
{
    for k in (0..lent.len()).rev() {
        if lent[k] != T::FILLING {
            return k + 1;
        }
    }
    0
}
