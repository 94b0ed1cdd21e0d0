// Counters, one for each of 64 members: seven words, the planes; bit b of plane i counts 2^i towards the number at b.
ghost use Rattle.std.specs.Prelude.{◌≡◌, cond, ◌&&◌, ℕ, ◌+◌, ◌%◌, ◌<◌, ltb, leb, length, get_or};
ghost use Rattle.sets.specs.Sets.{bit, count_below, tally};

use crate::members::Members;

// Enough for the numbers up to 64.
const PLANES: usize = 7;

// Adds one at each member of row. A counter at 127 goes back to 0.
fn add(planes: &mut [u64], row: u64)
    requires { length planes.old ≡ 7 }
    ensures { (b : ℕ) → tally planes.new 7 b ≡ (tally planes.old 7 b + cond (bit row b) 1 0) % 128 }
{
    let mut carry = row;
    for p in planes.iter_mut() {
        if carry == 0 {
            return;
        }
        let was = *p;
        *p = was ^ carry;
        carry = was & carry;
    }
}

// The set of those whose counter is k or more, from the lowest digit of k up.
fn at_least(planes: &[u64], k: usize) -> u64
    requires { (length planes.now ≡ 7) × (k < 128) }
    ensures { (b : ℕ) → bit result b ≡ (ltb b 64 && leb k (tally planes.now 7 b)) }
{
    let mut s = u64::MAX;
    let mut rest = k;
    for p in planes {
        if rest % 2 == 1 {
            s &= *p;
        } else {
            s |= *p;
        }
        rest /= 2;
    }
    s
}

// The set of those that stand in k or more of the sets ws[c], c in set. Past its end a list has empty sets.
pub fn shared(ws: &[u64], set: u64, k: usize) -> u64
    ensures { (b : ℕ) → bit result b ≡ (ltb b 64 && leb k (count_below 64 (λ c. bit set c && bit (get_or ws.now c 0) b))) }
{
    if 64 < k {
        return 0;
    }
    let mut planes = [0u64; PLANES];
    let listed = set & crate::mask(ws.len());
    for c in Members::of(listed) {
        add(&mut planes, ws[c]);
    }
    at_least(&planes, k)
}
