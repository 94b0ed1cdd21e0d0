// What a line that has passed stores: words of the terms, a word of the state or a bit of one, a set of free variables.
ghost use Rattle.std.specs.Prelude.{◌≡◌, ◌+◌, ◌*◌, ◌<◌, length, set};
ghost use Rattle.memory.specs.Layout.{terms_words, state_words, entry_at, policy_at, effect_at, mark_at, relation_at, table_at, event_at, event_unit, from_unit};
ghost use Rattle.reader.specs.private.Stepping.{Ranges};
ghost use Rattle.reader.specs.private.Storing.{three, four, with_bit_at, stored_terms, stored_state, stored_sets};

use crate::step::{Context, slot_of};
use file::line::Line;
use memory::layout;
use memory::layout::{
    BLOCK, EFFECT, EFFECTS_AT, ENTRIES_AT, ENTRY, EVENT, EVENT_AT, MARKS_AT, POLICIES_AT, TABLES_AT,
};

// The units of the event word, as numbers.
const FROM_UNIT: usize = layout::FROM_UNIT as usize;

const EVENT_UNIT: usize = layout::EVENT_UNIT as usize;

// Word at becomes v.
fn store(words: &mut [u16], at: usize, v: usize)
    requires { (at < length words.old) × (v < 65536) }
    ensures { words.new ≡ set words.old at v }
{
    words[at] = v as u16;
}

// The three words from at on become x, y and z.
fn store_three(words: &mut [u16], at: usize, x: usize, y: usize, z: usize)
    requires { (at + 2 < length words.old) × (at < 65536) × (x < 65536) × (y < 65536) × (z < 65536) }
    ensures { words.new ≡ three words.old at x y z }
{
    store(words, at, x);
    store(words, at + 1, y);
    store(words, at + 2, z);
}

// N.
fn store_members(terms: &mut [u16], n: usize)
    requires n_bound { n < 65 }
    requires terms_len { length terms.old ≡ terms_words }
    ensures { terms.new ≡ set terms.old 0 n }
{
    store(terms, 0, n);
}

// r and e.
fn store_labels(terms: &mut [u16], r: usize, e: usize)
    requires r_bound { (r < 17) × (e < 17) }
    requires terms_len { length terms.old ≡ terms_words }
    ensures { terms.new ≡ set (set terms.old 1 r) 2 e }
{
    store(terms, 1, r);
    store(terms, 2, e);
}

// Entry n, and the number of entries.
fn store_entry(terms: &mut [u16], n: usize, o: usize, a: usize, b: usize, c: usize)
    requires n_bound { (n < 256) × (o < 12) × (a < 256) × (b < 256) × (c < 256) }
    requires terms_len { length terms.old ≡ terms_words }
    ensures { terms.new ≡ four (set terms.old 3 (n + 1)) (entry_at n) o a b c }
{
    store(terms, 3, n + 1);
    let at = ENTRIES_AT + ENTRY * n;
    store_three(terms, at, o, a, b);
    store(terms, at + 3, c);
}

// The policy of event j.
fn store_policy(terms: &mut [u16], j: usize, n: usize)
    requires j_bound { (j < 16) × (n < 256) }
    requires terms_len { length terms.old ≡ terms_words }
    ensures { terms.new ≡ set terms.old (policy_at j) n }
{
    store(terms, POLICIES_AT + j, n);
}

// Effect i of event j.
fn store_effect(terms: &mut [u16], j: usize, i: usize, a: usize, k: usize, d: usize)
    requires j_bound { (j < 16) × (i < 4) × (a < 3) × (k < 16) × (d < 2) }
    requires terms_len { length terms.old ≡ terms_words }
    ensures { terms.new ≡ three terms.old (effect_at j i) a k d }
{
    store_three(terms, EFFECTS_AT + EVENT * j + EFFECT * i, a, k, d);
}

// The mark of event j.
fn store_mark(terms: &mut [u16], j: usize)
    requires j_bound { j < 16 }
    requires terms_len { length terms.old ≡ terms_words }
    ensures { terms.new ≡ set terms.old (mark_at j) 1 }
{
    store(terms, MARKS_AT + j, 1);
}

// Bit b of word at.
fn set_bit(words: &mut [u64], at: usize, b: usize)
    requires { (at < length words.old) × (b < 64) }
    ensures { words.new ≡ with_bit_at words.old at b }
{
    words[at] = words[at] | (1u64 << b);
}

// The bit of an edge.
fn store_edge(state: &mut [u64], k: usize, a: usize, b: usize)
    requires k_bound { (k < 16) × (a < 64) × (b < 64) }
    requires state_len { length state.old ≡ state_words }
    ensures { state.new ≡ with_bit_at state.old (relation_at k a) b }
{
    set_bit(state, BLOCK * k + a, b);
}

// The bit of a table.
fn store_bit(state: &mut [u64], t: usize, a: usize, b: usize)
    requires t_bound { (t < 32) × (a < 64) × (b < 64) }
    requires state_len { length state.old ≡ state_words }
    ensures { state.new ≡ with_bit_at state.old (table_at t a) b }
{
    set_bit(state, TABLES_AT + BLOCK * t + a, b);
}

// The event word. It names an event, granted or denied, as the line does.
fn store_event(state: &mut [u64], j: usize, u: usize, v: usize)
    requires j_bound { (j < 32) × (u < 64) × (v < 64) }
    requires state_len { length state.old ≡ state_words }
    ensures { state.new ≡ set state.old event_at (1 + j * event_unit + u * from_unit + v) }
{
    state[EVENT_AT] = (1 + j * EVENT_UNIT + u * FROM_UNIT + v) as u64;
}

// The words of the terms that a line gives.
#[tactic(auto, unfolding(crate::specs::private::Storing::stored_terms))]
pub(crate) fn store_terms(terms: &mut [u16], c: Context, line: Line)
    requires ranges { Ranges c line }
    requires terms_len { length terms.old ≡ terms_words }
    ensures { terms.new ≡ stored_terms c line terms.old }
{
    match line {
        Line::Members(n) => store_members(terms, n),
        Line::Labels(r, e) => store_labels(terms, r, e),
        Line::Entry(n, o, a, b, d) => store_entry(terms, n, o, a, b, d),
        Line::Policy(j, n) => store_policy(terms, j, n),
        Line::Effect(j, a, k, d) => store_effect(terms, j, slot_of(c, j), a, k, d),
        Line::Mark(j) => store_mark(terms, j),
        _ => {}
    }
}

// The word of the state that a line gives, or the bit of one.
#[tactic(auto, unfolding(crate::specs::private::Storing::stored_state))]
pub(crate) fn store_state(state: &mut [u64], c: Context, line: Line)
    requires ranges { Ranges c line }
    requires state_len { length state.old ≡ state_words }
    ensures { state.new ≡ stored_state line state.old }
{
    match line {
        Line::Edge(k, a, b) => store_edge(state, k, a, b),
        Line::TableBit(t, a, b) => store_bit(state, t, a, b),
        Line::PairBit(t, a, b, d) => store_bit(state, t, 4 * a + b / 4, 16 * (b % 4) + d),
        Line::EventEdge(j, u, v) => store_event(state, j, u, v),
        _ => {}
    }
}

// The free variables m of the entry that a line gives.
#[tactic(auto, unfolding(crate::specs::private::Storing::stored_sets))]
pub(crate) fn store_set(masks: &mut [u64], c: Context, line: Line, m: u64)
    requires ranges { Ranges c line }
    requires masks_len { length masks.old ≡ 256 }
    ensures { masks.new ≡ stored_sets line m masks.old }
{
    match line {
        Line::Entry(n, _, _, _, _) => {
            masks[n] = m;
        }
        _ => {}
    }
}
