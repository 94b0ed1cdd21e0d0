// Writing for crates above: the same puts, for every place and number.
ghost use Rattle.std.specs.Prelude.{[], ◌∷◌, ◌+◌, ◌^◌, ◌<◌, ◌≤◌, length};
ghost use Rattle.fields.specs.Number.{digits};
ghost use Rattle.fields.specs.private.Put.{PutIf};

use crate::put::{put, put_number, put_word};

// The places that bytes and digits are put below.
const BYTES_BELOW: usize = 4611686018427387904;

const DIGITS_BELOW: usize = 2305843009213693952;

// Puts b at a place. The next place; the same place, with nothing put, from 2 ^ 62.
pub fn put_byte(out: &mut [u8], at: usize, b: u8) -> usize
    ensures put_if { PutIf (at < 2 ^ 62) out.old out.new at result (b ∷ []) }
    ensures upper_bound { result ≤ at + 1 }
{
    if BYTES_BELOW <= at {
        return at;
    }
    put(out, at, b)
}

// Puts the bytes of w from a place on. The place after them; the same place, with nothing put,
// where that would be 2 ^ 62 or more.
pub fn put_bytes(out: &mut [u8], at: usize, w: &[u8]) -> usize
    ensures { PutIf (at + length w.now < 2 ^ 62) out.old out.new at result w.now }
{
    if BYTES_BELOW <= at || BYTES_BELOW - at <= w.len() {
        return at;
    }
    put_word(out, at, w)
}

// Puts the digits of n. The place after them; the same place, with nothing put, from 2 ^ 61 or for a
// number of more than five digits.
pub fn put_decimal(out: &mut [u8], at: usize, n: usize) -> usize
    ensures { PutIf ((n < 100000) × (at < 2 ^ 61)) out.old out.new at result (digits n) }
{
    if DIGITS_BELOW <= at || 100000 <= n {
        return at;
    }
    put_number(out, at, n)
}
