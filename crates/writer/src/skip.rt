// Where the lines of set bits end past the end of an output: they are counted by their digits, and nothing is put.
ghost use Rattle.std.specs.Prelude.{◌≡◌, [], ◌∷◌, ◌+◌, ◌*◌, ◌^◌, ◌<◌, ◌≤◌, length};
ghost use Rattle.memory.specs.Layout.{event_at};
ghost use Rattle.fields.specs.Number.{digits};
ghost use Rattle.fields.specs.private.Put.{Put};
ghost use Rattle.file.specs.Writing.{printed_all};
ghost use Rattle.writer.specs.private.Kinds.{bit_of, row_of, Skipped};

use memory::layout::BLOCK;
use memory::limits::MEMBERS;
use sets::has;

// How many digits a number below 100 has.
fn width(n: usize) -> usize
    requires { n < 100 }
    ensures value { result ≡ length (digits n) }
    ensures upper_bound { result ≤ 2 }
{
    if n < 10 { 1 } else { 2 }
}

// The place after a line of a kind and three numbers.
fn skip_triple(at: usize, n: usize, a: usize, b: usize) -> usize
    requires { (n < 100) × (a < 100) × (b < 100) × (at < 2 ^ 58) }
    ensures skipped { Skipped at result (digits n ∷ digits a ∷ digits b ∷ []) }
    ensures upper_bound { result ≤ at + 32 }
{
    at + 5 + width(n) + width(a) + width(b)
}

// The place after a line of a kind and four numbers.
fn skip_quad(at: usize, n: usize, a: usize, b: usize, c: usize) -> usize
    requires { (n < 100) × (a < 100) × (b < 100) × (c < 100) × (at < 2 ^ 58) }
    ensures skipped { Skipped at result (digits n ∷ digits a ∷ digits b ∷ digits c ∷ []) }
    ensures upper_bound { result ≤ at + 32 }
{
    at + 6 + width(n) + width(a) + width(b) + width(c)
}

// The place after the line of bit b of word i of the relations, or tables, which is w, where it is set.
fn skip_bit(at: usize, table: bool, pairs: u64, w: u64, i: usize, b: usize) -> usize
    requires { (i < event_at) × (b < 64) × (at < 2 ^ 58) }
    ensures put { Put [] [] at result (printed_all (bit_of table pairs w i b)) }
    ensures upper_bound { result ≤ at + 32 }
{
    if !has(w, b) {
        return at;
    }
    if !table {
        return skip_triple(at, i / BLOCK, i % BLOCK, b);
    }
    if has(pairs, i / BLOCK) {
        return skip_quad(
            at,
            i / BLOCK,
            i % BLOCK / 4,
            4 * (i % BLOCK % 4) + b / 16,
            b % 16,
        );
    }
    skip_triple(at, i / BLOCK, i % BLOCK, b)
}

// The place after the lines of word i, which is w.
pub(crate) fn skip_row(at: usize, table: bool, pairs: u64, w: u64, i: usize) -> usize
    requires { (i < event_at) × (at < 2 ^ 57) }
    ensures put { Put [] [] at result (printed_all (row_of table pairs w i)) }
    ensures upper_bound { result ≤ at + 32 * 64 }
{
    let mut next = at;
    for b in 0..MEMBERS {
        next = skip_bit(next, table, pairs, w, i, b);
    }
    next
}
