// The writer of the old form: the text of the lent terms and present relations (docs/SCOPE.md, The terms file), kind by
// kind. It carries relations only: a state with a past is refused with 12.
// Whatever the words are, the text has at most 2 ^ 24 bytes, so that no count wraps.
ghost use Rattle.std.specs.Prelude.{◌≡◌, cond, ◌+◌, ◌*◌, ◌^◌, ◌<◌, ◌≤◌, eqb, length};
ghost use Rattle.memory.specs.Layout.{relation_words, terms_of};
ghost use Rattle.memory.specs.Outcome.{checks};
ghost use Rattle.memory.specs.Outcome.Outcome.{passed};
ghost use Rattle.fields.specs.private.Put.{Put};
ghost use Rattle.writer.specs.Write.{written_text, writing_of, old_size_gives, old_write_gives, old_write_leaves};
ghost use Rattle.file.specs.Writing.{mark_line, printed_all};
ghost use Rattle.writer.specs.private.Kinds.{front_lines, entry_of, entry_lines, policy_of, policy_lines, mark_lines, effects_of, event_lines, triple_of};

use crate::bits::put_edges;
use crate::fresh::is_fresh;
use crate::print::{put_effect, put_entry, put_pair, put_single};
use file::vocabulary::Kind;
use memory::check;
use memory::layout::{
    EFFECT, EFFECTS_AT, EVENT, entries, events, first_of, is_kept, members, op_of, policy_of,
    relations, second_of, third_of, word,
};
use memory::limits::EFFECTS;
use memory::refusal::Refusal;

// Puts the F line of entry n.
fn put_entry_of(terms: &[u16], out: &mut [u8], at: usize, n: usize) -> usize
    requires { (n < 65536) × (at < 2 ^ 58) }
    ensures put { Put out.old out.new at result (printed_all (entry_of (terms_of terms.now) n)) }
    ensures upper_bound { result ≤ at + 32 }
{
    let op = op_of(terms, n);
    let a = first_of(terms, n);
    let b = second_of(terms, n);
    let c = third_of(terms, n);
    put_entry(out, at, n, op, a, b, c)
}

// Puts the F lines.
fn put_entries(terms: &[u16], out: &mut [u8], at: usize) -> usize
    requires { at < 2 ^ 57 }
    ensures put { Put out.old out.new at result (printed_all (entry_lines (terms_of terms.now))) }
    ensures upper_bound { result ≤ at + 32 * 65536 }
{
    let mut next = at;
    for n in 0..entries(terms) {
        next = put_entry_of(terms, out, next, n);
    }
    next
}

// Puts the P line of event j.
fn put_policy_of(terms: &[u16], out: &mut [u8], at: usize, j: usize) -> usize
    requires { (j < 65536) × (at < 2 ^ 58) }
    ensures put { Put out.old out.new at result (printed_all (policy_of (terms_of terms.now) j)) }
    ensures upper_bound { result ≤ at + 32 }
{
    let n = policy_of(terms, j);
    put_pair(out, at, Kind::Policy, j, n)
}

// Puts the P lines.
fn put_policies(terms: &[u16], out: &mut [u8], at: usize) -> usize
    requires { at < 2 ^ 57 }
    ensures put { Put out.old out.new at result (printed_all (policy_lines (terms_of terms.now))) }
    ensures upper_bound { result ≤ at + 32 * 65536 }
{
    let mut next = at;
    for j in 0..events(terms) {
        next = put_policy_of(terms, out, next, j);
    }
    next
}

// Puts the K line of event j, if it is kept.
fn put_mark_of(terms: &[u16], out: &mut [u8], at: usize, j: usize) -> usize
    requires { (j < 65536) × (at < 2 ^ 58) }
    ensures put { Put out.old out.new at result (printed_all (mark_line (terms_of terms.now) j)) }
    ensures upper_bound { result ≤ at + 8 }
{
    if !is_kept(terms, j) {
        return at;
    }
    put_single(out, at, Kind::Mark, j)
}

// Puts the K lines.
fn put_marks(terms: &[u16], out: &mut [u8], at: usize) -> usize
    requires { at < 2 ^ 57 }
    ensures put { Put out.old out.new at result (printed_all (mark_lines (terms_of terms.now))) }
    ensures upper_bound { result ≤ at + 8 * 65536 }
{
    let mut next = at;
    for j in 0..events(terms) {
        next = put_mark_of(terms, out, next, j);
    }
    next
}

// 1 where w is 1, else the other number.
fn one_or(w: usize, other: usize) -> usize
    ensures { result ≡ cond (eqb w 1) 1 other }
{
    if w == 1 { 1 } else { other }
}

// Puts the E line of the effect of event j in three words.
fn put_slot(terms: &[u16], out: &mut [u8], at: usize, j: usize, from: usize) -> usize
    requires { (j < 65536) × (from < 2 ^ 58) × (at < 2 ^ 58) }
    ensures put { Put out.old out.new at result (printed_all (triple_of terms.now j from)) }
    ensures upper_bound { result ≤ at + 32 }
{
    let action = one_or(word(terms, from), 2);
    let relation = word(terms, from + 1);
    let direction = one_or(word(terms, from + 2), 0);
    put_effect(out, at, j, action, relation, direction)
}

// Puts the E lines of event j: its four places for effects, up to the first that is empty.
fn put_effects_of(terms: &[u16], out: &mut [u8], at: usize, j: usize) -> usize
    requires { (j < 65536) × (at < 2 ^ 57) }
    ensures put { Put out.old out.new at result (printed_all (effects_of (terms_of terms.now) j)) }
    ensures upper_bound { result ≤ at + 128 }
{
    let mut next = at;
    for i in 0..EFFECTS {
        let from = EFFECTS_AT + EVENT * j + EFFECT * i;
        if word(terms, from) == 0 {
            return next;
        }
        next = put_slot(terms, out, next, j, from);
    }
    next
}

// Puts the E lines.
fn put_effects(terms: &[u16], out: &mut [u8], at: usize) -> usize
    requires { at < 2 ^ 56 }
    ensures put { Put out.old out.new at result (printed_all (event_lines (terms_of terms.now))) }
    ensures upper_bound { result ≤ at + 128 * 65536 }
{
    let mut next = at;
    for j in 0..events(terms) {
        next = put_effects_of(terms, out, next, j);
    }
    next
}

// Puts the M and the L line.
fn put_front(terms: &[u16], out: &mut [u8], at: usize) -> usize
    requires { at < 2 ^ 57 }
    ensures put { Put out.old out.new at result (printed_all (front_lines (terms_of terms.now))) }
    ensures upper_bound { result ≤ at + 64 }
{
    let next = put_single(out, at, Kind::Members, members(terms));
    put_pair(out, next, Kind::Labels, relations(terms), events(terms))
}

// Puts the whole text.
pub(crate) fn put_text(terms: &[u16], state: &[u64], out: &mut [u8], at: usize) -> usize
    requires { (relation_words ≤ length state.now) × (at < 2 ^ 55) }
    ensures put { Put out.old out.new at result (written_text terms.now state.now) }
    ensures upper_bound { result ≤ at + 2 ^ 24 }
{
    let entries = put_front(terms, out, at);
    let policies = put_entries(terms, out, entries);
    let marks = put_policies(terms, out, policies);
    let effects = put_marks(terms, out, marks);
    let edges = put_effects(terms, out, effects);
    put_edges(state, out, edges)
}

// The count of bytes of the text, found by putting it into one byte.
fn count(terms: &[u16], state: &[u64]) -> usize
    requires { relation_words ≤ length state.now }
    ensures { result ≡ length (written_text terms.now state.now) }
{
    let mut one = [0u8; 1];
    put_text(terms, state, &mut one, 0)
}

// The size of checked terms and state, where the state is a fresh start.
fn size_checked(terms: &[u16], state: &[u64]) -> Result<usize, Refusal>
    requires { passed ≡ checks terms.now state.now }
    ensures { writing_of result ≡ old_size_gives terms.now state.now }
{
    if is_fresh(terms, state) {
        Ok(count(terms, state))
    } else {
        Err(Refusal::Fresh)
    }
}

// Writes the text of checked terms and state, where the state is a fresh start and the output has room for all of it.
fn write_checked(terms: &[u16], state: &[u64], out: &mut [u8]) -> Result<usize, Refusal>
    requires { passed ≡ checks terms.now state.now }
    ensures result_value { writing_of result ≡ old_write_gives terms.now state.now out.old }
    ensures out_after { out.new ≡ old_write_leaves terms.now state.now out.old }
{
    if !is_fresh(terms, state) {
        return Err(Refusal::Fresh);
    }
    let n = count(terms, state);
    if out.len() < n {
        return Err(Refusal::Short);
    }
    put_text(terms, state, out, 0);
    Ok(n)
}

// How many bytes `write` would write, or its refusal of terms and state: 6, 7, 8 or 12.
pub fn size(terms: &[u16], state: &[u64]) -> Result<usize, Refusal>
    ensures { writing_of result ≡ old_size_gives terms.now state.now }
{
    check(terms, state)?;
    size_checked(terms, state)
}

// Writes the terms with the present relations, from a state that is a fresh start of its own relations. The count of
// bytes, or a refusal, which leaves the output untouched: 6, 7 and 8 for terms and state, 12 for a state that is
// another, and last 6 for an output too short for the whole text.
pub fn write(terms: &[u16], state: &[u64], out: &mut [u8]) -> Result<usize, Refusal>
    ensures result_value { writing_of result ≡ old_write_gives terms.now state.now out.old }
    ensures out_after { out.new ≡ old_write_leaves terms.now state.now out.old }
{
    check(terms, state)?;
    write_checked(terms, state, out)
}
