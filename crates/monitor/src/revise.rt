// New terms while playing (docs/SCOPE.md, New terms): a second state is filled in for them from the old one. Its tables
// are filled in over relations and own words apart, of one state or of a bank.
ghost use Rattle.std.specs.Prelude.{◌≡◌, [], ◌++◌, ◌+◌, ◌*◌, ◌<◌, ◌≤◌, length, get_or, take, drop};
ghost use Rattle.theory.specs.Tables.{revised};
ghost use Rattle.memory.specs.Layout.{relation_words, own_words, block_words, terms_of, state_of, words_of};
ghost use Rattle.memory.specs.Outcome.{outcome_of, revises};
ghost use Rattle.memory.specs.TableIndex.{index_table};
ghost use Rattle.calls.specs.Revising.{revised_state};
ghost use Rattle.deciding.specs.private.Memo.{MemoOf, Fresh};
ghost use Rattle.deciding.specs.private.Moving.{put};
ghost use Rattle.deciding.specs.private.Starting.{Revising, Begun, Taken};

use decide::{memo, memo_choice};
use memory::limits::ENTRIES;
use memory::refusal::Refusal;
use memory::table_index::{is_past, table_of};
use memory::{clear, layout};
use moments::apart;
use moments::moment::put_table;

const TABLES: usize = layout::TABLES_AT;

const ROWS: usize = layout::BLOCK;

const EVENT: usize = layout::OWN_EVENT_AT;

// Copies as many words as there is room for. (A loop, since the library's copy may call `memmove`.)
pub(crate) fn copy(to: &mut [u64], from: &[u64])
    requires { length to.old ≤ length from.now }
    ensures { to.new ≡ take (length to.old) from.now }
{
    for (i, word) in to.iter_mut().enumerate() {
        *word = from[i];
    }
}

// Fills in the table of new entry n with that of old entry k.
fn take_table(before: &[u16], own: &[u64], index: &[u16], second: &mut [u64], k: usize, n: usize)
    requires block_words_in_bounds { block_words * index_table (get_or before.now k 0) + block_words ≤ length own.now }
    requires block_words_in_bounds_2 { block_words * index_table (get_or index.now n 0) + block_words ≤ length second.old }
    ensures { second.new ≡ put (block_words * index_table (get_or index.now n 0)) (take block_words (drop (block_words * index_table (get_or before.now k 0)) own.now)) second.old }
{
    let t = ROWS * table_of(layout::word(before, k));
    put_table(index, second, &own[t..t + ROWS], n);
}

// Fills in the table of new entry n, if that is a prev or a since: with the table of the first old entry with
// the same formula; or else a prev stays empty, and a since is what its second operand is now, which the since
// sweep makes of an empty table.
fn start_turn(
    old: &[u16],
    before: &[u16],
    relations: &[u64],
    own: &[u64],
    new: &[u16],
    index: &[u16],
    taken: &[u16],
    second: &mut [u64],
    memo: &mut [u64],
    f: &mut [u64],
    rows: &mut [u64],
    n: usize,
)
    requires revising { Revising old.now before.now (relations.now ++ own.now) new.now index.now × Taken old.now new.now taken.now }
    requires relations_len { (length relations.now ≡ relation_words) × (length own.now ≡ own_words) × (length second.old ≡ own_words) }
    requires n_bound { (n < (terms_of new.now).entries) × (length rows.old ≡ block_words) × (length f.old ≡ block_words) }
    requires begun { Begun old.now (relations.now ++ own.now) new.now n [] (relations.now ++ second.old) }
    requires memo_of { MemoOf (terms_of new.now) (relations.now ++ second.old) (terms_of new.now).entries memo.old × Fresh (terms_of new.now).entries n memo.old }
    ensures begun_2 { Begun old.now (relations.now ++ own.now) new.now (n + 1) [] (relations.now ++ second.new) }
    ensures memo_of_2 { MemoOf (terms_of new.now) (relations.now ++ second.new) (terms_of new.now).entries memo.new × Fresh (terms_of new.now).entries n memo.new }
{
    let k = layout::word(taken, n);
    if k < layout::entries(old) {
        if is_past(layout::op_of(new, n)) {
            take_table(before, own, index, second, k, n);
        }
    } else {
        apart::since_turn(new, index, relations, second, memo, f, rows, n);
    }
}

// Fills in the tables, from the lowest entry up: a table that starts now reads only those of lower entries.
fn start_tables(
    old: &[u16],
    before: &[u16],
    relations: &[u64],
    own: &[u64],
    new: &[u16],
    index: &[u16],
    taken: &[u16],
    second: &mut [u64],
    memo: &mut [u64],
    rows: &mut [u64],
)
    requires revising { Revising old.now before.now (relations.now ++ own.now) new.now index.now × Taken old.now new.now taken.now }
    requires relations_len { (length relations.now ≡ relation_words) × (length own.now ≡ own_words) × (length second.old ≡ own_words) × (length rows.old ≡ block_words) }
    requires begun { Begun old.now (relations.now ++ own.now) new.now 0 [] (relations.now ++ second.old) }
    ensures { Begun old.now (relations.now ++ own.now) new.now (terms_of new.now).entries [] (relations.now ++ second.new) }
{
    let mut f = [0u64; ROWS];
    apart::renew(new, index, memo);
    for n in 0..layout::entries(new) {
        start_turn(
            old, before, relations, own, new, index, taken, second, memo, &mut f, rows, n,
        );
    }
}

// The same, with a memo that has a slot for each entry; out of line, so that no caller has the memo in its frame.
#[inline(never)]
fn start_shared(
    old: &[u16],
    before: &[u16],
    relations: &[u64],
    own: &[u64],
    new: &[u16],
    index: &[u16],
    taken: &[u16],
    second: &mut [u64],
    rows: &mut [u64],
)
    requires revising { Revising old.now before.now (relations.now ++ own.now) new.now index.now × Taken old.now new.now taken.now }
    requires relations_len { (length relations.now ≡ relation_words) × (length own.now ≡ own_words) × (length second.old ≡ own_words) × (length rows.old ≡ block_words) }
    requires begun { Begun old.now (relations.now ++ own.now) new.now 0 [] (relations.now ++ second.old) }
    ensures { Begun old.now (relations.now ++ own.now) new.now (terms_of new.now).entries [] (relations.now ++ second.new) }
{
    let mut memo = [0u64; memo::WORDS];
    start_tables(
        old, before, relations, own, new, index, taken, second, &mut memo, rows,
    );
}

// The own words that the new terms begin with: the event word carries over, and the tables,
// empty at first, are filled in.
pub(crate) fn begin(
    old: &[u16],
    before: &[u16],
    relations: &[u64],
    own: &[u64],
    new: &[u16],
    index: &[u16],
    taken: &[u16],
    second: &mut [u64],
)
    requires revising { Revising old.now before.now (relations.now ++ own.now) new.now index.now × Taken old.now new.now taken.now }
    requires relations_len { (length relations.now ≡ relation_words) × (length own.now ≡ own_words) × (length second.old ≡ own_words) }
    ensures { relations.now ++ second.new ≡ words_of (terms_of new.now) (revised (terms_of old.now) (state_of (relations.now ++ own.now)) (terms_of new.now)) }
{
    clear(second);
    second[EVENT] = own[EVENT];
    let mut rows = [0u64; ROWS];
    if memo_choice::are_brief(new) {
        let mut none = [0u64; 1];
        start_tables(
            old, before, relations, own, new, index, taken, second, &mut none, &mut rows,
        );
    } else {
        start_shared(
            old, before, relations, own, new, index, taken, second, &mut rows,
        );
    }
}

// From old terms, the state under them and new terms, fills in the second state, with which the new terms go
// on. A refusal leaves it as lent.
pub fn revise(old: &[u16], state: &[u64], new: &[u16], second: &mut [u64]) -> Result<(), Refusal>
    ensures result_value { outcome_of result ≡ revises old.now state.now new.now second.old }
    ensures second_after { second.new ≡ revised_state old.now state.now new.now second.old }
{
    let mut before = [0u16; ENTRIES];
    let mut after = [0u16; ENTRIES];
    memory::inspect_revision(old, state, new, second, &mut before, &mut after)?;
    let mut taken = [0u16; ENTRIES];
    classes::find_classes(old, new, &mut taken);
    copy(&mut second[0..TABLES], state);
    begin(
        old,
        &before,
        &state[0..TABLES],
        &state[TABLES..layout::STATE],
        new,
        &after,
        &taken,
        &mut second[TABLES..layout::STATE],
    );
    Ok(())
}
