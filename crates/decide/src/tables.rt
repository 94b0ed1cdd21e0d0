// The next table of a past-time entry, by deciding its operands: with one column, and with two.
ghost use Rattle.std.specs.Prelude.{◌≡◌, true, false, not, [], ◌∷◌, ◌+◌, ◌<◌, eqb, length, get_or};
ghost use Rattle.theory.specs.Formula.{columns};
ghost use Rattle.theory.specs.Terms.{formula};
ghost use Rattle.theory.specs.Limits.{variables, pair_members};
ghost use Rattle.memory.specs.TableIndex.{index_first, index_last};
ghost use Rattle.memory.specs.Layout.{block_words, terms_of};
ghost use Rattle.deciding.specs.private.Rows.{Table, operand_bits, next_prev, next_since};
ghost use Rattle.deciding.specs.private.Memo.{Memo, Grown};

use crate::decide::{decide, rebind};
use crate::present::Present;
use crate::{pairs, rows};
use memory::layout::BLOCK;
use memory::limits::VARIABLES;
use memory::{layout, table_index};

// Leaves the next table of a prev entry with one column.
fn prev_rows(present: &Present, memo: &mut [u64], entry: usize, out: &mut [u64])
    requires bound { (entry < (terms_of present.now.terms.now).entries) × (((terms_of present.now.terms.now).entry entry).op ≡ 6) × (length out.old ≡ block_words) }
    requires value { not (eqb (index_first (get_or present.now.index.now entry 0)) (index_last (get_or present.now.index.now entry 0))) ≡ false }
    requires memo { Memo (terms_of present.now.terms.now) present.now.relations.now present.now.past.now entry memo.old }
    ensures table { Table (terms_of present.now.terms.now).members (columns (formula (terms_of present.now.terms.now) entry)) (next_prev (terms_of present.now.terms.now) present.now.relations.now present.now.past.now entry) out.new }
    ensures grown { Grown (terms_of present.now.terms.now) present.now.relations.now present.now.past.now entry memo.old memo.new }
{
    let x = table_index::last_of(layout::word(present.index, entry));
    let n = layout::members(present.terms);
    let all = sets::mask(n);
    let a = layout::first_of(present.terms, entry);
    decide(present, memo, [0u8; VARIABLES], x, a, all, out);
    rows::clear_from(out, n);
}

// Leaves the next table of a since entry with one column, from its old one. The first operand is decided in f.
fn since_rows(present: &Present, memo: &mut [u64], entry: usize, f: &mut [u64], out: &mut [u64])
    requires bound { (entry < (terms_of present.now.terms.now).entries) × (((terms_of present.now.terms.now).entry entry).op ≡ 7) × (length out.old ≡ block_words) × (length f.old ≡ block_words) }
    requires value { not (eqb (index_first (get_or present.now.index.now entry 0)) (index_last (get_or present.now.index.now entry 0))) ≡ false }
    requires memo { Memo (terms_of present.now.terms.now) present.now.relations.now present.now.past.now entry memo.old }
    ensures table { Table (terms_of present.now.terms.now).members (columns (formula (terms_of present.now.terms.now) entry)) (next_since (terms_of present.now.terms.now) present.now.relations.now present.now.past.now entry) out.new }
    ensures grown { Grown (terms_of present.now.terms.now) present.now.relations.now present.now.past.now entry memo.old memo.new }
{
    let p = layout::word(present.index, entry);
    let x = table_index::last_of(p);
    let n = layout::members(present.terms);
    let all = sets::mask(n);
    let a = layout::first_of(present.terms, entry);
    let b = layout::second_of(present.terms, entry);
    decide(present, memo, [0u8; VARIABLES], x, b, all, out);
    decide(present, memo, [0u8; VARIABLES], x, a, all, f);
    rows::join_kept(out, f, present.past, table_index::table_of(p));
    rows::clear_from(out, n);
}

// Leaves the table of an operand with the columns x and y: for each b its rows, with x standing for b and y open.
fn pair_rows(
    present: &Present,
    memo: &mut [u64],
    x: usize,
    y: usize,
    operand: usize,
    out: &mut [u64],
)
    requires operand_bound { (operand < (terms_of present.now.terms.now).entries) × ((terms_of present.now.terms.now).members < 1 + pair_members) × (x < variables) × (y < variables) × (eqb x y ≡ false) × (length out.old ≡ block_words) }
    requires memo { Memo (terms_of present.now.terms.now) present.now.relations.now present.now.past.now (operand + 1) memo.old }
    ensures table { Table (terms_of present.now.terms.now).members (x ∷ y ∷ []) (operand_bits (terms_of present.now.terms.now) present.now.relations.now present.now.past.now (x ∷ y ∷ []) operand) out.new }
    ensures grown { Grown (terms_of present.now.terms.now) present.now.relations.now present.now.past.now (operand + 1) memo.old memo.new }
{
    let n = layout::members(present.terms);
    let all = sets::mask(n);
    let mut f = [0u64; BLOCK];
    rows::clear(out);
    for b in 0..n {
        let vars = rebind([0u8; VARIABLES], x, b);
        decide(present, memo, vars, y, operand, all, &mut f);
        pairs::add_rows(out, &f, n, b);
    }
}

// Leaves the next table of a prev entry with two columns.
fn prev_pairs(present: &Present, memo: &mut [u64], entry: usize, out: &mut [u64])
    requires bound { (entry < (terms_of present.now.terms.now).entries) × (((terms_of present.now.terms.now).entry entry).op ≡ 6) × (length out.old ≡ block_words) }
    requires value { not (eqb (index_first (get_or present.now.index.now entry 0)) (index_last (get_or present.now.index.now entry 0))) ≡ true }
    requires memo { Memo (terms_of present.now.terms.now) present.now.relations.now present.now.past.now entry memo.old }
    ensures table { Table (terms_of present.now.terms.now).members (columns (formula (terms_of present.now.terms.now) entry)) (next_prev (terms_of present.now.terms.now) present.now.relations.now present.now.past.now entry) out.new }
    ensures grown { Grown (terms_of present.now.terms.now) present.now.relations.now present.now.past.now entry memo.old memo.new }
{
    let p = layout::word(present.index, entry);
    let x = table_index::first_of(p);
    let y = table_index::last_of(p);
    let a = layout::first_of(present.terms, entry);
    pair_rows(present, memo, x, y, a, out);
}

// Leaves the next table of a since entry with two columns, from its old one. That of the
// first operand is worked out in f.
fn since_pairs(present: &Present, memo: &mut [u64], entry: usize, f: &mut [u64], out: &mut [u64])
    requires bound { (entry < (terms_of present.now.terms.now).entries) × (((terms_of present.now.terms.now).entry entry).op ≡ 7) × (length out.old ≡ block_words) × (length f.old ≡ block_words) }
    requires value { not (eqb (index_first (get_or present.now.index.now entry 0)) (index_last (get_or present.now.index.now entry 0))) ≡ true }
    requires memo { Memo (terms_of present.now.terms.now) present.now.relations.now present.now.past.now entry memo.old }
    ensures table { Table (terms_of present.now.terms.now).members (columns (formula (terms_of present.now.terms.now) entry)) (next_since (terms_of present.now.terms.now) present.now.relations.now present.now.past.now entry) out.new }
    ensures grown { Grown (terms_of present.now.terms.now) present.now.relations.now present.now.past.now entry memo.old memo.new }
{
    let p = layout::word(present.index, entry);
    let x = table_index::first_of(p);
    let y = table_index::last_of(p);
    let a = layout::first_of(present.terms, entry);
    let b = layout::second_of(present.terms, entry);
    pair_rows(present, memo, x, y, b, out);
    pair_rows(present, memo, x, y, a, f);
    rows::join_kept(out, f, present.past, table_index::table_of(p));
}

// Leaves the next table of a prev entry.
pub fn prev_table(present: &Present, memo: &mut [u64], entry: usize, out: &mut [u64])
    requires bound { (entry < (terms_of present.now.terms.now).entries) × (((terms_of present.now.terms.now).entry entry).op ≡ 6) × (length out.old ≡ block_words) }
    requires memo { Memo (terms_of present.now.terms.now) present.now.relations.now present.now.past.now entry memo.old }
    ensures table { Table (terms_of present.now.terms.now).members (columns (formula (terms_of present.now.terms.now) entry)) (next_prev (terms_of present.now.terms.now) present.now.relations.now present.now.past.now entry) out.new }
    ensures grown { Grown (terms_of present.now.terms.now) present.now.relations.now present.now.past.now entry memo.old memo.new }
{
    if table_index::is_pair(layout::word(present.index, entry)) {
        prev_pairs(present, memo, entry, out);
    } else {
        prev_rows(present, memo, entry, out);
    }
}

// Leaves the next table of a since entry, from its old one. The first operand is decided in f.
pub fn since_table(
    present: &Present,
    memo: &mut [u64],
    entry: usize,
    f: &mut [u64],
    out: &mut [u64],
)
    requires bound { (entry < (terms_of present.now.terms.now).entries) × (((terms_of present.now.terms.now).entry entry).op ≡ 7) × (length out.old ≡ block_words) × (length f.old ≡ block_words) }
    requires memo { Memo (terms_of present.now.terms.now) present.now.relations.now present.now.past.now entry memo.old }
    ensures table { Table (terms_of present.now.terms.now).members (columns (formula (terms_of present.now.terms.now) entry)) (next_since (terms_of present.now.terms.now) present.now.relations.now present.now.past.now entry) out.new }
    ensures grown { Grown (terms_of present.now.terms.now) present.now.relations.now present.now.past.now entry memo.old memo.new }
{
    if table_index::is_pair(layout::word(present.index, entry)) {
        since_pairs(present, memo, entry, f, out);
    } else {
        since_rows(present, memo, entry, f, out);
    }
}
