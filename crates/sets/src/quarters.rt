// A word as four quarters of 16 bits. Every function is total: a number from 4 up is no quarter.
ghost use Rattle.std.specs.Prelude.{◌≡◌, ◌&&◌, ◌||◌, ℕ, ◌+◌, ◌*◌, ◌/◌, ◌%◌, eqb, ltb, length, get_or};
ghost use Rattle.sets.specs.Sets.{bit};

// Quarter q of w.
pub fn quarter(w: u64, q: usize) -> u64
    ensures { (c : ℕ) → bit result c ≡ (ltb c 16 && bit w (16 * q + c)) }
{
    if q < 4 { (w >> (16 * q)) & 65535 } else { 0 }
}

// w with the bits of row below 16 added to quarter q.
pub fn with_quarter(w: u64, q: usize, row: u64) -> u64
    ensures { (k : ℕ) → bit result k ≡ (bit w k || (ltb k 64 && (eqb (k / 16) q && bit row (k % 16)))) }
{
    if q < 4 {
        w | ((row & 65535) << (16 * q))
    } else {
        w
    }
}

// Bit c, below 16, of each of the 16 quarters of the four words from `from` on, where there are so many.
pub fn stripe(ws: &[u64], from: usize, c: usize) -> u64
    ensures { (b : ℕ) → bit result b ≡ (ltb (from + 3) (length ws.now) && (ltb c 16 && (ltb b 16 && bit (get_or ws.now (from + b / 4) 0) (16 * (b % 4) + c)))) }
{
    if 16 <= c || ws.len().saturating_sub(3) <= from {
        return 0;
    }
    let mut s = 0;
    for b in 0..16 {
        let w = ws[from + b / 4];
        s |= crate::only(crate::has(w, 16 * (b % 4) + c), crate::single(b));
    }
    s
}
