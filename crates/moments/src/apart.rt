// The sweeps over the tables, where relations and own words are lent apart: as two banks lend them, or as the parts of
// one state.
ghost use Rattle.std.specs.Prelude.{◌≡◌, true, List, ◌++◌, ℕ, ◌<◌, length};
ghost use Rattle.memory.specs.Layout.{relation_words, own_words, block_words, terms_of};
ghost use Rattle.memory.specs.Checks.{good_memory};
ghost use Rattle.memory.specs.TableIndex.{Indexed};
ghost use Rattle.deciding.specs.private.Memo.{MemoOf, Fresh};
ghost use Rattle.deciding.specs.private.Moving.{Movable, Becomes, prev_at, prev_moved, since_at, since_moved};

use crate::moment::put_table;
use decide::present::Present;
use decide::{memo, tables};
use memory::layout;
use theory::operators::{PREV, SINCE};

const ROWS: usize = layout::BLOCK;

// Makes lent words a memo with no rows. One word alone is a memo with no slot.
pub fn renew(terms: &[u16], index: &[u16], memo: &mut [u64])
    requires { (good_memory terms.now ≡ true) × Indexed (terms_of terms.now) index.now }
    ensures fresh { Fresh (terms_of terms.now).entries 0 memo.new }
    ensures by_index { (m : List ℕ) → MemoOf (terms_of terms.now) m (terms_of terms.now).entries memo.new }
{
    if 1 < memo.len() {
        memo::prepare(terms, index, memo);
    }
}

// Moves the table of entry n on, if that is a prev.
fn prev_turn(
    terms: &[u16],
    index: &[u16],
    relations: &[u64],
    own: &mut [u64],
    memo: &mut [u64],
    rows: &mut [u64],
    n: usize,
)
    requires movable { Movable terms.now index.now (relations.now ++ own.old) × (length relations.now ≡ relation_words) × (length own.old ≡ own_words) }
    requires n_bound { (n < (terms_of terms.now).entries) × (length rows.old ≡ block_words) }
    requires memo_of { MemoOf (terms_of terms.now) (relations.now ++ own.old) n memo.old }
    ensures becomes { Becomes terms.now (prev_at n) (relations.now ++ own.old) (relations.now ++ own.new) }
    ensures memo_of_2 { MemoOf (terms_of terms.now) (relations.now ++ own.new) n memo.new }
{
    if layout::op_of(terms, n) == PREV {
        let present = Present {
            terms,
            index,
            relations,
            past: own,
        };
        tables::prev_table(&present, memo, n, rows);
        put_table(index, own, rows, n);
    }
}

// Moves the table of entry n on, which is a since. Out of line, so that a sweep over other entries does not pay for it.
#[inline(never)]
fn step_since(
    terms: &[u16],
    index: &[u16],
    relations: &[u64],
    own: &mut [u64],
    memo: &mut [u64],
    f: &mut [u64],
    rows: &mut [u64],
    n: usize,
)
    requires movable { Movable terms.now index.now (relations.now ++ own.old) × (length relations.now ≡ relation_words) × (length own.old ≡ own_words) }
    requires n_bound { (n < (terms_of terms.now).entries) × (length rows.old ≡ block_words) × (length f.old ≡ block_words) }
    requires op { ((terms_of terms.now).entry n).op ≡ 7 }
    requires memo_of { MemoOf (terms_of terms.now) (relations.now ++ own.old) (terms_of terms.now).entries memo.old × Fresh (terms_of terms.now).entries n memo.old }
    ensures becomes { Becomes terms.now (since_at n) (relations.now ++ own.old) (relations.now ++ own.new) }
    ensures memo_of_2 { MemoOf (terms_of terms.now) (relations.now ++ own.new) (terms_of terms.now).entries memo.new × Fresh (terms_of terms.now).entries n memo.new }
{
    let present = Present {
        terms,
        index,
        relations,
        past: own,
    };
    tables::since_table(&present, memo, n, f, rows);
    put_table(index, own, rows, n);
}

// Moves the table of entry n on, if that is a since.
pub fn since_turn(
    terms: &[u16],
    index: &[u16],
    relations: &[u64],
    own: &mut [u64],
    memo: &mut [u64],
    f: &mut [u64],
    rows: &mut [u64],
    n: usize,
)
    requires movable { Movable terms.now index.now (relations.now ++ own.old) × (length relations.now ≡ relation_words) × (length own.old ≡ own_words) }
    requires n_bound { (n < (terms_of terms.now).entries) × (length rows.old ≡ block_words) × (length f.old ≡ block_words) }
    requires memo_of { MemoOf (terms_of terms.now) (relations.now ++ own.old) (terms_of terms.now).entries memo.old × Fresh (terms_of terms.now).entries n memo.old }
    ensures becomes { Becomes terms.now (since_at n) (relations.now ++ own.old) (relations.now ++ own.new) }
    ensures memo_of_2 { MemoOf (terms_of terms.now) (relations.now ++ own.new) (terms_of terms.now).entries memo.new × Fresh (terms_of terms.now).entries n memo.new }
{
    if layout::op_of(terms, n) == SINCE {
        step_since(terms, index, relations, own, memo, f, rows, n);
    }
}

// Moves every prev table on, from the highest entry down: a table reads only those of
// lower entries, which are still old.
pub(crate) fn move_prev(
    terms: &[u16],
    index: &[u16],
    relations: &[u64],
    own: &mut [u64],
    memo: &mut [u64],
    rows: &mut [u64],
)
    requires { Movable terms.now index.now (relations.now ++ own.old) × (length relations.now ≡ relation_words) × (length own.old ≡ own_words) × (length rows.old ≡ block_words) }
    ensures { Becomes terms.now prev_moved (relations.now ++ own.old) (relations.now ++ own.new) }
{
    renew(terms, index, memo);
    for n in (0..layout::entries(terms)).rev() {
        prev_turn(terms, index, relations, own, memo, rows, n);
    }
}

// Moves every since table on, from the lowest entry up: a table reads only those of lower
// entries, which are moved already.
pub(crate) fn move_since(
    terms: &[u16],
    index: &[u16],
    relations: &[u64],
    own: &mut [u64],
    memo: &mut [u64],
    rows: &mut [u64],
)
    requires { Movable terms.now index.now (relations.now ++ own.old) × (length relations.now ≡ relation_words) × (length own.old ≡ own_words) × (length rows.old ≡ block_words) }
    ensures { Becomes terms.now since_moved (relations.now ++ own.old) (relations.now ++ own.new) }
{
    let mut f = [0u64; ROWS];
    renew(terms, index, memo);
    for n in 0..layout::entries(terms) {
        since_turn(terms, index, relations, own, memo, &mut f, rows, n);
    }
}
