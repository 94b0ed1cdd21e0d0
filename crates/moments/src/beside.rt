// The next moment of two banks, in place: the prev tables of both, the moment itself, the since tables of both. In the
// bank beside the moment has no event edge.
ghost use Rattle.std.specs.Prelude.{◌≡◌, true, ◌++◌, ◌<◌, ◌≤◌, length, take, drop, replicate};
ghost use Rattle.theory.specs.Limits.{scratch_words};
ghost use Rattle.theory.specs.Tables.{named, decide_now, opening, made, advance};
ghost use Rattle.memory.specs.Layout.{terms_words, relation_words, own_words, block_words, joined, terms_of, state_of, words_of};
ghost use Rattle.memory.specs.Checks.{good_memory, good_state, good_relations};
ghost use Rattle.memory.specs.TableIndex.{Indexed};
ghost use Rattle.deciding.specs.private.Moving.{Movable, Becomes, entered, since_moved};
ghost use Rattle.banking.specs.Banks.{quiet};
ghost use Rattle.banking.specs.private.Beside.{hushed};
ghost use Rattle.moments.specs.private.Moments.{Moved};

use crate::{apart, effects};
use decide::present::Present;
use decide::{memo, memo_choice, queries};
use memory::{clear, layout};

const TABLES: usize = layout::TABLES_AT;

const ROWS: usize = layout::BLOCK;

const OWN: usize = layout::OWN;

const EVENT: usize = layout::OWN_EVENT_AT;

// Whether the policy of the event holds now in the bank, at the initiator with variable 0 standing for the target.
pub fn is_granted(
    terms: &[u16],
    index: &[u16],
    relations: &[u64],
    own: &[u64],
    event: usize,
    from: usize,
    to: usize,
) -> bool
    requires terms_words_in_bounds { (terms_words ≤ length terms.now) × (good_memory terms.now ≡ true) × Indexed (terms_of terms.now) index.now }
    requires relation_words_in_bounds { (relation_words ≤ length relations.now) × (own_words ≤ length own.now) × (good_state (terms_of terms.now) (joined relations.now own.now) ≡ true) }
    requires to_value { named (terms_of terms.now) event from to ≡ true }
    ensures { result ≡ decide_now (terms_of terms.now) (state_of (joined relations.now own.now)) event from to }
{
    let policy = layout::policy_of(terms, event);
    let memoless = memo_choice::is_brief(terms, policy);
    let present = Present {
        terms,
        index,
        relations: &relations[0..TABLES],
        past: &own[0..OWN],
    };
    queries::settle(&present, policy, from, to, memoless)
}

// The moment itself: the effects, if the request is granted, the event edge of the bank, and none beside.
fn enter(
    terms: &[u16],
    relations: &mut [u64],
    own: &mut [u64],
    other: &mut [u64],
    granted: bool,
    event: usize,
    from: usize,
    to: usize,
)
    requires terms_value { (good_memory terms.now ≡ true) × (named (terms_of terms.now) event from to ≡ true) }
    requires relations_len { (length relations.old ≡ relation_words) × (length own.old ≡ own_words) × (length other.old ≡ own_words) }
    ensures becomes { Becomes terms.now (entered granted event from to) (relations.old ++ own.old) (relations.new ++ own.new) }
    ensures becomes_2 { Becomes terms.now (hushed granted event from to) (relations.old ++ other.old) (relations.new ++ other.new) }
{
    if granted {
        effects::make_effects(terms, relations, event, from, to);
    }
    effects::put_event(terms, own, granted, event, from, to);
    other[EVENT] = 0;
}

// Both banks at the next moment. The tables are worked out in rows.
fn move_both(
    terms: &[u16],
    index: &[u16],
    relations: &mut [u64],
    own: &mut [u64],
    other: &mut [u64],
    memo: &mut [u64],
    rows: &mut [u64],
    granted: bool,
    event: usize,
    from: usize,
    to: usize,
)
    requires movable { Movable terms.now index.now (relations.old ++ own.old) × Movable terms.now index.now (relations.old ++ other.old) }
    requires relations_len { (length relations.old ≡ relation_words) × (length own.old ≡ own_words) × (length other.old ≡ own_words) × (length rows.old ≡ block_words) }
    requires to_value { named (terms_of terms.now) event from to ≡ true }
    ensures becomes { Becomes terms.now (λ T S. advance T S (made T S.now granted event from to)) (relations.old ++ own.old) (relations.new ++ own.new) }
    ensures becomes_2 { Becomes terms.now (λ T S. advance T S (quiet (made T S.now granted event from to))) (relations.old ++ other.old) (relations.new ++ other.new) }
{
    apart::move_prev(terms, index, relations, own, memo, rows);
    apart::move_prev(terms, index, relations, other, memo, rows);
    enter(terms, relations, own, other, granted, event, from, to);
    apart::move_since(terms, index, relations, own, memo, rows);
    apart::move_since(terms, index, relations, other, memo, rows);
}

// The same, with a memo that has a slot for each entry; out of line, so that no caller has the memo in its frame.
#[inline(never)]
fn move_shared(
    terms: &[u16],
    index: &[u16],
    relations: &mut [u64],
    own: &mut [u64],
    other: &mut [u64],
    rows: &mut [u64],
    granted: bool,
    event: usize,
    from: usize,
    to: usize,
)
    requires movable { Movable terms.now index.now (relations.old ++ own.old) × Movable terms.now index.now (relations.old ++ other.old) }
    requires relations_len { (length relations.old ≡ relation_words) × (length own.old ≡ own_words) × (length other.old ≡ own_words) × (length rows.old ≡ block_words) }
    requires to_value { named (terms_of terms.now) event from to ≡ true }
    ensures becomes { Becomes terms.now (λ T S. advance T S (made T S.now granted event from to)) (relations.old ++ own.old) (relations.new ++ own.new) }
    ensures becomes_2 { Becomes terms.now (λ T S. advance T S (quiet (made T S.now granted event from to))) (relations.old ++ other.old) (relations.new ++ other.new) }
{
    let mut memo = [0u64; memo::WORDS];
    move_both(
        terms, index, relations, own, other, &mut memo, rows, granted, event, from, to,
    );
}

// The same, without a memo where that is brief.
fn move_on(
    terms: &[u16],
    index: &[u16],
    relations: &mut [u64],
    own: &mut [u64],
    other: &mut [u64],
    rows: &mut [u64],
    granted: bool,
    event: usize,
    from: usize,
    to: usize,
)
    requires movable { Movable terms.now index.now (relations.old ++ own.old) × Movable terms.now index.now (relations.old ++ other.old) }
    requires relations_len { (length relations.old ≡ relation_words) × (length own.old ≡ own_words) × (length other.old ≡ own_words) × (length rows.old ≡ block_words) }
    requires to_value { named (terms_of terms.now) event from to ≡ true }
    ensures becomes { Becomes terms.now (λ T S. advance T S (made T S.now granted event from to)) (relations.old ++ own.old) (relations.new ++ own.new) }
    ensures becomes_2 { Becomes terms.now (λ T S. advance T S (quiet (made T S.now granted event from to))) (relations.old ++ other.old) (relations.new ++ other.new) }
{
    if memo_choice::are_brief(terms) {
        let mut none = [0u64; 1];
        move_both(
            terms, index, relations, own, other, &mut none, rows, granted, event, from, to,
        );
    } else {
        move_shared(
            terms, index, relations, own, other, rows, granted, event, from, to,
        );
    }
}

// Both banks at the moment that a request makes, granted or denied, in place; the named
// words of both scratches are left 0.
pub fn next_moments(
    terms: &[u16],
    index: &[u16],
    relations: &mut [u64],
    own: &mut [u64],
    other: &mut [u64],
    scratch: &mut [u64],
    spare: &mut [u64],
    granted: bool,
    event: usize,
    from: usize,
    to: usize,
)
    requires terms_words_in_bounds { (terms_words ≤ length terms.now) × (good_memory terms.now ≡ true) × Indexed (terms_of terms.now) index.now × (named (terms_of terms.now) event from to ≡ true) }
    requires relation_words_in_bounds { (relation_words ≤ length relations.old) × (own_words ≤ length own.old) × (own_words ≤ length other.old) }
    requires own_value { (good_state (terms_of terms.now) (joined relations.old own.old) ≡ true) × (good_state (terms_of terms.now) (joined relations.old other.old) ≡ true) }
    requires scratch_words_in_bounds { (scratch_words ≤ length scratch.old) × (scratch_words ≤ length spare.old) }
    ensures moved { Moved terms.now granted event from to relations.old own.old other.old relations.new own.new other.new }
    ensures scratch_after { (scratch.new ≡ replicate scratch_words 0 ++ drop scratch_words scratch.old) × (spare.new ≡ replicate scratch_words 0 ++ drop scratch_words spare.old) }
{
    move_on(
        terms,
        index,
        &mut relations[0..TABLES],
        &mut own[0..OWN],
        &mut other[0..OWN],
        &mut scratch[0..ROWS],
        granted,
        event,
        from,
        to,
    );
    clear(&mut scratch[0..layout::SCRATCH]);
    clear(&mut spare[0..layout::SCRATCH]);
}

// The since sweep with a memo that has a slot for each entry; out of line, so that no caller has the memo in its frame.
#[inline(never)]
fn open_shared(terms: &[u16], index: &[u16], relations: &[u64], own: &mut [u64], rows: &mut [u64])
    requires { Movable terms.now index.now (relations.now ++ own.old) × (length relations.now ≡ relation_words) × (length own.old ≡ own_words) × (length rows.old ≡ block_words) }
    ensures { Becomes terms.now since_moved (relations.now ++ own.old) (relations.now ++ own.new) }
{
    let mut memo = [0u64; memo::WORDS];
    apart::move_since(terms, index, relations, own, &mut memo, rows);
}

// A bank's own words at moment 0 of the relations: the since sweep over tables of zeros.
pub fn first_moment(terms: &[u16], index: &[u16], relations: &[u64], own: &mut [u64])
    requires terms_words_in_bounds { (terms_words ≤ length terms.now) × (good_memory terms.now ≡ true) × Indexed (terms_of terms.now) index.now }
    requires relation_words_in_bounds { (relation_words ≤ length relations.now) × (own_words ≤ length own.old) × (good_relations (terms_of terms.now) relations.now ≡ true) }
    ensures { take relation_words relations.now ++ own.new ≡ words_of (terms_of terms.now) (opening (terms_of terms.now) (state_of relations.now).now.edge) ++ drop own_words own.old }
{
    let mut rows = [0u64; ROWS];
    clear(&mut own[0..OWN]);
    if memo_choice::are_brief(terms) {
        let mut none = [0u64; 1];
        apart::move_since(
            terms,
            index,
            &relations[0..TABLES],
            &mut own[0..OWN],
            &mut none,
            &mut rows,
        );
    } else {
        open_shared(
            terms,
            index,
            &relations[0..TABLES],
            &mut own[0..OWN],
            &mut rows,
        );
    }
}
