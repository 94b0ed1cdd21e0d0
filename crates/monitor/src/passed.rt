// The checks of terms, state and scratch, and looks and requests over memory that has passed them.
ghost use Rattle.std.specs.Prelude.{◌≡◌, true, List, ℕ, ◌≤◌, length};
ghost use Rattle.theory.specs.Limits.{scratch_words};
ghost use Rattle.theory.specs.Tables.{named};
ghost use Rattle.memory.specs.Layout.{terms_words, state_words, terms_of};
ghost use Rattle.memory.specs.Checks.{good_memory, good_state};
ghost use Rattle.memory.specs.Outcome.{outcome_of, has_passed};
ghost use Rattle.memory.specs.TableIndex.{Indexed};
ghost use Rattle.calls.specs.Monitor.{answer_of, answer, granted, moves, state_after, scratch_after};
ghost use Rattle.calls.specs.SetList.{list_checks};
ghost use Rattle.calls.specs.private.Listing.{MemoryPassed};

use calls::{Answer, Verdict};
use memory::layout;
use memory::limits::ENTRIES;
use memory::refusal::Refusal;
use moments::moment;

// Checks terms, state and scratch, and leaves the table index where they pass.
pub(crate) fn inspect_call(
    terms: &[u16],
    state: &[u64],
    scratch: &[u64],
    index: &mut [u16; ENTRIES],
) -> Result<(), Refusal>
    ensures result_value { outcome_of result ≡ list_checks terms.now state.now scratch.now }
    ensures indexed { has_passed (outcome_of result) ≡ true → Indexed (terms_of terms.now) index.new }
{
    if scratch.len() < layout::SCRATCH {
        return Err(Refusal::Short);
    }
    memory::inspect(terms, state, index)
}

// Whether event, from and to name an event and two members.
pub(crate) fn is_named(terms: &[u16], event: usize, from: usize, to: usize) -> bool
    ensures { result ≡ named (terms_of terms.now) event from to }
{
    let n = layout::members(terms);
    event < layout::events(terms) && (from < n && to < n)
}

pub(crate) fn is_grant(a: Answer) -> bool
    ensures { result ≡ granted (answer_of a) }
{
    matches!(a, Answer::Decided(Verdict::Grant))
}

// Whether the answer to a request makes a moment, where its event is kept or not.
pub(crate) fn is_moving(kept: bool, a: Answer) -> bool
    ensures { result ≡ moves kept (answer_of a) }
{
    is_grant(a) || (kept && matches!(a, Answer::Decided(Verdict::Deny)))
}

// What a request would answer now, with any scratch that is long enough. It makes no moment.
pub(crate) fn look(
    terms: &[u16],
    index: &[u16],
    state: &[u64],
    event: usize,
    from: usize,
    to: usize,
) -> Answer
    requires terms_words_in_bounds { (terms_words ≤ length terms.now) × (good_memory terms.now ≡ true) }
    requires indexed { Indexed (terms_of terms.now) index.now }
    requires state_words_in_bounds { (state_words ≤ length state.now) × (good_state (terms_of terms.now) state.now ≡ true) }
    ensures { (scratch : List ℕ) → scratch_words ≤ length scratch
        → answer_of result ≡ answer terms.now state.now scratch event from to }
{
    if !is_named(terms, event, from, to) {
        return Err(Refusal::Name).into();
    }
    if moment::is_granted(terms, index, state, event, from, to) {
        Answer::Decided(Verdict::Grant)
    } else {
        Answer::Decided(Verdict::Deny)
    }
}

// Answers a request. Where it makes a moment, that is made in place and the named words of scratch are left 0.
// Otherwise all memory is left as lent.
pub(crate) fn request(
    terms: &[u16],
    index: &[u16],
    state: &mut [u64],
    scratch: &mut [u64],
    event: usize,
    from: usize,
    to: usize,
) -> Answer
    requires { MemoryPassed terms.now index.now state.old scratch.old }
    ensures result_value { answer_of result
        ≡ answer terms.now state.old scratch.old event from to }
    ensures state_after { state.new
        ≡ state_after terms.now state.old scratch.old event from to }
    ensures scratch_after { scratch.new
        ≡ scratch_after terms.now state.old scratch.old event from to }
{
    let a = look(terms, index, state, event, from, to);
    if is_moving(layout::is_kept(terms, event), a) {
        moment::next_moment(terms, index, state, scratch, is_grant(a), event, from, to);
        return a;
    }
    a
}
