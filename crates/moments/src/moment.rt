// From one moment to the next, in place: the prev tables, the moment itself, the since tables.
ghost use Rattle.std.specs.Prelude.{◌≡◌, true, ◌++◌, ◌+◌, ◌*◌, ◌<◌, ◌≤◌, length, get_or, drop, replicate};
ghost use Rattle.theory.specs.Limits.{scratch_words};
ghost use Rattle.memory.specs.Layout.{terms_words, state_words, relation_words, own_words, block_words, terms_of, state_of, words_of};
ghost use Rattle.memory.specs.Checks.{good_memory, good_state, good_relations};
ghost use Rattle.theory.specs.Tables.{named, opening, decide_now, made, advance};
ghost use Rattle.memory.specs.TableIndex.{index_table, Indexed};
ghost use Rattle.calls.specs.Telling.{holds_at};
ghost use Rattle.deciding.specs.private.Memo.{MemoOf, Fresh};
ghost use Rattle.deciding.specs.private.Moving.{Movable, Becomes, put, prev_at, prev_moved, since_at, since_moved};

use crate::effects::enter;
use crate::{apart, beside};
use decide::present::Present;
use decide::{memo, memo_choice, queries};
use memory::{clear, layout, table_index};

// Where the tables begin, the rows of a table, and a bank's own words.
const TABLES: usize = layout::TABLES_AT;

const ROWS: usize = layout::BLOCK;

const OWN: usize = layout::OWN;

// Whether an entry holds now, at u with variable 0 standing for v.
pub fn is_so(terms: &[u16], index: &[u16], state: &[u64], entry: usize, u: usize, v: usize) -> bool
    requires terms_words_in_bounds { (terms_words ≤ length terms.now) × (good_memory terms.now ≡ true) × Indexed (terms_of terms.now) index.now }
    requires state_words_in_bounds { (state_words ≤ length state.now) × (good_state (terms_of terms.now) state.now ≡ true) }
    requires bound { (entry < (terms_of terms.now).entries) × (u < (terms_of terms.now).members) × (v < (terms_of terms.now).members) }
    ensures { result ≡ holds_at (terms_of terms.now) (state_of state.now) entry u v }
{
    let memoless = memo_choice::is_brief(terms, entry);
    let present = Present {
        terms,
        index,
        relations: &state[0..TABLES],
        past: &state[TABLES..layout::STATE],
    };
    queries::settle(&present, entry, u, v, memoless)
}

// Whether the policy of the event holds now, at the initiator with variable 0 standing for the target.
pub fn is_granted(
    terms: &[u16],
    index: &[u16],
    state: &[u64],
    event: usize,
    from: usize,
    to: usize,
) -> bool
    requires terms_words_in_bounds { (terms_words ≤ length terms.now) × (good_memory terms.now ≡ true) × Indexed (terms_of terms.now) index.now }
    requires state_words_in_bounds { (state_words ≤ length state.now) × (good_state (terms_of terms.now) state.now ≡ true) × (named (terms_of terms.now) event from to ≡ true) }
    ensures { result ≡ decide_now (terms_of terms.now) (state_of state.now) event from to }
{
    is_so(
        terms,
        index,
        state,
        layout::policy_of(terms, event),
        from,
        to,
    )
}

// Stores one finished table. (The function is lent that part and nothing else: docs/SCOPE.md, Forms. A loop, since the
// library's copy may call `memmove`, which the archive does without.)
fn store_table(part: &mut [u64], rows: &[u64])
    requires { (length part.old ≡ block_words) × (length rows.now ≡ block_words) }
    ensures { part.new ≡ rows.now }
{
    for (a, word) in part.iter_mut().enumerate() {
        *word = rows[a];
    }
}

// Stores rows as the table of entry n, in a bank's own words. Only that part of them is lent on.
pub fn put_table(index: &[u16], own: &mut [u64], rows: &[u64], n: usize)
    requires { (block_words * index_table (get_or index.now n 0) + block_words ≤ length own.old) × (length rows.now ≡ block_words) }
    ensures { own.new ≡ put (block_words * index_table (get_or index.now n 0)) rows.now own.old }
{
    let k = ROWS * table_index::table_of(layout::word(index, n));
    store_table(&mut own[k..k + ROWS], rows);
}

// The state at the next moment, of relations and own words apart, with the lent memo. The tables are worked out in rows.
fn move_all(
    terms: &[u16],
    index: &[u16],
    relations: &mut [u64],
    own: &mut [u64],
    memo: &mut [u64],
    rows: &mut [u64],
    granted: bool,
    event: usize,
    from: usize,
    to: usize,
)
    requires movable { Movable terms.now index.now (relations.old ++ own.old) }
    requires relations_len { (length relations.old ≡ relation_words) × (length own.old ≡ own_words) × (length rows.old ≡ block_words) }
    requires to_value { named (terms_of terms.now) event from to ≡ true }
    ensures { Becomes terms.now (λ T S. advance T S (made T S.now granted event from to)) (relations.old ++ own.old) (relations.new ++ own.new) }
{
    apart::move_prev(terms, index, relations, own, memo, rows);
    enter(terms, relations, own, granted, event, from, to);
    apart::move_since(terms, index, relations, own, memo, rows);
}

// The same, with a memo that has a slot for each entry; out of line, so that no caller has the memo in its frame.
#[inline(never)]
fn move_shared(
    terms: &[u16],
    index: &[u16],
    relations: &mut [u64],
    own: &mut [u64],
    rows: &mut [u64],
    granted: bool,
    event: usize,
    from: usize,
    to: usize,
)
    requires movable { Movable terms.now index.now (relations.old ++ own.old) }
    requires relations_len { (length relations.old ≡ relation_words) × (length own.old ≡ own_words) × (length rows.old ≡ block_words) }
    requires to_value { named (terms_of terms.now) event from to ≡ true }
    ensures { Becomes terms.now (λ T S. advance T S (made T S.now granted event from to)) (relations.old ++ own.old) (relations.new ++ own.new) }
{
    let mut memo = [0u64; memo::WORDS];
    move_all(
        terms, index, relations, own, &mut memo, rows, granted, event, from, to,
    );
}

// The same, without a memo where that is brief.
fn move_on(
    terms: &[u16],
    index: &[u16],
    relations: &mut [u64],
    own: &mut [u64],
    rows: &mut [u64],
    granted: bool,
    event: usize,
    from: usize,
    to: usize,
)
    requires movable { Movable terms.now index.now (relations.old ++ own.old) }
    requires relations_len { (length relations.old ≡ relation_words) × (length own.old ≡ own_words) × (length rows.old ≡ block_words) }
    requires to_value { named (terms_of terms.now) event from to ≡ true }
    ensures { Becomes terms.now (λ T S. advance T S (made T S.now granted event from to)) (relations.old ++ own.old) (relations.new ++ own.new) }
{
    if memo_choice::are_brief(terms) {
        let mut none = [0u64; 1];
        move_all(
            terms, index, relations, own, &mut none, rows, granted, event, from, to,
        );
    } else {
        move_shared(terms, index, relations, own, rows, granted, event, from, to);
    }
}

// The state at the moment that a request makes, granted or denied, in place; the named words of scratch are left 0.
pub fn next_moment(
    terms: &[u16],
    index: &[u16],
    state: &mut [u64],
    scratch: &mut [u64],
    granted: bool,
    event: usize,
    from: usize,
    to: usize,
)
    requires terms_words_in_bounds { (terms_words ≤ length terms.now) × (good_memory terms.now ≡ true) × Indexed (terms_of terms.now) index.now }
    requires state_words_in_bounds { (state_words ≤ length state.old) × (good_state (terms_of terms.now) state.old ≡ true) × (named (terms_of terms.now) event from to ≡ true) }
    requires scratch_words_in_bounds { scratch_words ≤ length scratch.old }
    ensures state_after { state.new ≡ words_of (terms_of terms.now) (advance (terms_of terms.now) (state_of state.old) (made (terms_of terms.now) (state_of state.old).now granted event from to)) ++ drop state_words state.old }
    ensures scratch_after { scratch.new ≡ replicate scratch_words 0 ++ drop scratch_words scratch.old }
{
    let (relations, past) = state.split_at_mut(TABLES);
    move_on(
        terms,
        index,
        relations,
        &mut past[0..OWN],
        &mut scratch[0..ROWS],
        granted,
        event,
        from,
        to,
    );
    clear(&mut scratch[0..layout::SCRATCH]);
}

// The state of moment 0 of the relations that stand there: the since sweep over tables of zeros.
pub fn first_moment(terms: &[u16], index: &[u16], state: &mut [u64])
    requires terms_words_in_bounds { (terms_words ≤ length terms.now) × (good_memory terms.now ≡ true) × Indexed (terms_of terms.now) index.now }
    requires state_words_in_bounds { (state_words ≤ length state.old) × (good_relations (terms_of terms.now) state.old ≡ true) }
    ensures { state.new ≡ words_of (terms_of terms.now) (opening (terms_of terms.now) (state_of state.old).now.edge) ++ drop state_words state.old }
{
    let (relations, past) = state.split_at_mut(TABLES);
    beside::first_moment(terms, index, relations, past);
}
