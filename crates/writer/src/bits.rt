// Lines of set bits: the edges of the relations and the bits of the tables, word by word.
// Relations and tables are kept alike.
ghost use Rattle.std.specs.Prelude.{◌+◌, ◌*◌, ◌^◌, ◌<◌, ◌≤◌, length};
ghost use Rattle.memory.specs.Layout.{relation_words, event_at, state_of};
ghost use Rattle.fields.specs.private.Put.{Put};
ghost use Rattle.file.specs.Writing.{printed_all};
ghost use Rattle.theory.specs.Terms.{Terms};
ghost use Rattle.writer.specs.private.Kinds.{Paired, edge_lines, table_lines, bit_of, row_of, rows_of};

use crate::print::{put_quad, put_triple};
use crate::skip::skip_row;
use file::vocabulary::Kind;
use memory::layout::{BLOCK, EVENT_AT, TABLES_AT};
use memory::limits::MEMBERS;
use sets::has;

// The words of all tables.
const TABLE_WORDS: usize = EVENT_AT - TABLES_AT;

// Puts the G line, or T line, of bit b of word i of the relations, or tables, which is w, where it is set. A table of
// the set pairs has two columns.
fn put_bit(out: &mut [u8], at: usize, table: bool, pairs: u64, w: u64, i: usize, b: usize) -> usize
    requires { (i < event_at) × (b < 64) × (at < 2 ^ 58) }
    ensures put { Put out.old out.new at result (printed_all (bit_of table pairs w i b)) }
    ensures upper_bound { result ≤ at + 32 }
{
    if !has(w, b) {
        return at;
    }
    if !table {
        return put_triple(out, at, Kind::Edge, i / BLOCK, i % BLOCK, b);
    }
    if has(pairs, i / BLOCK) {
        return put_quad(
            out,
            at,
            Kind::Table,
            i / BLOCK,
            i % BLOCK / 4,
            4 * (i % BLOCK % 4) + b / 16,
            b % 16,
        );
    }
    put_triple(out, at, Kind::Table, i / BLOCK, i % BLOCK, b)
}

// Puts the lines of word i, which is w, bit by bit.
fn put_bits(out: &mut [u8], at: usize, table: bool, pairs: u64, w: u64, i: usize) -> usize
    requires { (i < event_at) × (at < 2 ^ 57) }
    ensures put { Put out.old out.new at result (printed_all (row_of table pairs w i)) }
    ensures upper_bound { result ≤ at + 32 * 64 }
{
    let mut next = at;
    for b in 0..MEMBERS {
        next = put_bit(out, next, table, pairs, w, i, b);
    }
    next
}

// The same; a word without bits is passed over, and past the end of the output the lines are only counted.
fn put_row(out: &mut [u8], at: usize, table: bool, pairs: u64, w: u64, i: usize) -> usize
    requires { (i < event_at) × (at < 2 ^ 57) }
    ensures put { Put out.old out.new at result (printed_all (row_of table pairs w i)) }
    ensures upper_bound { result ≤ at + 32 * 64 }
{
    if w == 0 {
        return at;
    }
    if out.len() <= at {
        return skip_row(at, table, pairs, w, i);
    }
    put_bits(out, at, table, pairs, w, i)
}

// Puts the lines of the words of the state from one on.
fn put_rows(
    state: &[u64],
    out: &mut [u8],
    at: usize,
    table: bool,
    pairs: u64,
    first: usize,
    count: usize,
) -> usize
    requires { (first + count ≤ length state.now) × (count ≤ event_at) × (at < 2 ^ 56) }
    ensures put { Put out.old out.new at result (printed_all (rows_of table pairs state.now first count)) }
    ensures upper_bound { result ≤ at + 32 * 64 * count }
{
    let mut next = at;
    for (i, w) in state[first..first + count].iter().enumerate() {
        next = put_row(out, next, table, pairs, *w, i);
    }
    next
}

// Puts the G lines.
pub(crate) fn put_edges(state: &[u64], out: &mut [u8], at: usize) -> usize
    requires { (relation_words ≤ length state.now) × (at < 2 ^ 56) }
    ensures put { Put out.old out.new at result (printed_all (edge_lines (state_of state.now).now.edge)) }
    ensures upper_bound { result ≤ at + 32 * 65536 }
{
    put_rows(state, out, at, false, 0, 0, TABLES_AT)
}

// Puts the T lines, where the tables with two columns are those of a set.
pub(crate) fn put_tables(state: &[u64], out: &mut [u8], at: usize, pairs: u64) -> usize
    requires { (event_at ≤ length state.now) × (at < 2 ^ 56) }
    ensures put { (T : Terms) → Paired T pairs → Put out.old out.new at result (printed_all (table_lines T (state_of state.now).table)) }
    ensures upper_bound { result ≤ at + 32 * 131072 }
{
    put_rows(state, out, at, true, pairs, TABLES_AT, TABLE_WORDS)
}
