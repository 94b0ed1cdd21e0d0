// Tables with two columns, of few members: rows read from their words, and rows put into them
// (crate memory, specs/Layout.antt).
ghost use Rattle.std.specs.Prelude.{◌≡◌, true, cond, ◌&&◌, ℕ, ◌+◌, ◌*◌, ◌/◌, ◌%◌, ◌<◌, ◌≤◌, eqb, length, get_or};
ghost use Rattle.sets.specs.Sets.{bit};
ghost use Rattle.theory.specs.Limits.{max_tables, pair_members};
ghost use Rattle.memory.specs.Layout.{block_words};
ghost use Rattle.deciding.specs.private.Rows.{table_words, Rows, pair_cell, open_column, AddedRows};

use memory::layout::BLOCK;
use sets::members::Members;
use sets::quarters;

// The words of a member.
const WORDS: usize = 4;

// The bits of a quarter.
const LOW: u64 = 65535;

// Which column is open, where x is: 1 the first, 2 the last, 0 none.
pub(crate) fn open_column(x: usize, first: usize, last: usize) -> usize
    ensures { result ≡ open_column x first last }
{
    if x == first {
        1
    } else if x == last {
        2
    } else {
        0
    }
}

// What a table says of one member, whose words stand from `at` on, with the columns standing for b and c: the row of
// those members that the open column may stand for; where none is open, all or none.
fn row_of(past: &[u64], at: usize, b: usize, c: usize, free: usize) -> u64
    requires { (at + 4 ≤ length past.now) × (b < 16) × (c < 16) }
    ensures { (v : ℕ) → v < 16 → bit result v ≡ bit (get_or past.now (at + cond (eqb free 1) v b / 4) 0) (16 * (cond (eqb free 1) v b % 4) + cond (eqb free 2) v c) }
{
    match free {
        1 => quarters::stripe(past, at, c),
        2 => quarters::quarter(past[at + b / 4], b % 4),
        _ => sets::only(sets::has(past[at + b / 4], 16 * (b % 4) + c), LOW),
    }
}

// Leaves the rows of table t, cut to all, at the members of want, with the columns standing for b and c, or open.
pub(crate) fn recall(
    out: &mut [u64],
    past: &[u64],
    t: usize,
    b: usize,
    c: usize,
    free: usize,
    want: u64,
    all: u64,
)
    requires out_len { (length out.old ≡ block_words) × (t < max_tables) × (table_words ≤ length past.now) × (b < 16) × (c < 16) }
    requires by_index { (a : ℕ) → bit want a ≡ true → a < 16 }
    requires by_index_2 { (v : ℕ) → bit all v ≡ true → v < 16 }
    ensures { Rows want (λ a v. bit all v && pair_cell past.now t b c free a v) out.new }
{
    for a in Members::of(want) {
        out[a] = all & row_of(past, BLOCK * t + WORDS * a, b, c, free);
    }
}

// Adds the rows of b, one for each of n members, to a table: what holds with the first column standing for b.
pub(crate) fn add_rows(table: &mut [u64], rows: &[u64], n: usize, b: usize)
    requires { (length table.old ≡ block_words) × (length rows.now ≡ block_words) × (n < 1 + pair_members) × (b < n) }
    ensures { AddedRows n b rows.now table.old table.new }
{
    for a in 0..n {
        let i = WORDS * a + b / 4;
        table[i] = quarters::with_quarter(table[i], b % 4, rows[a] & LOW);
    }
}
