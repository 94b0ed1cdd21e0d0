// Whether an entry holds now, by deciding it.
ghost use Rattle.std.specs.Prelude.{◌≡◌, ◌+◌, ◌<◌};
ghost use Rattle.theory.specs.Meaning.{assign};
ghost use Rattle.memory.specs.Layout.{terms_of};
ghost use Rattle.deciding.specs.private.Rows.{now_at};
ghost use Rattle.deciding.specs.private.Memo.{Memo};

use crate::decide::{CLOSED, decide, rebind};
use crate::memo;
use crate::present::Present;
use memory::layout;
use memory::layout::BLOCK;
use memory::limits::VARIABLES;
use theory::operators::{NOT, OR};

// Whether entry holds now at u, with variable 0 standing for v and every other one for member 0.
pub(crate) fn holds_at(
    present: &Present,
    memo: &mut [u64],
    entry: usize,
    u: usize,
    v: usize,
) -> bool
    requires bound { (entry < (terms_of present.now.terms.now).entries) × (u < (terms_of present.now.terms.now).members) × (v < (terms_of present.now.terms.now).members) }
    requires memo { Memo (terms_of present.now.terms.now) present.now.relations.now present.now.past.now (entry + 1) memo.old }
    ensures { result ≡ now_at (terms_of present.now.terms.now) present.now.relations.now present.now.past.now (assign (λ x. 0) 0 v) entry u }
{
    let mut f = [0u64; BLOCK];
    let vars = rebind([0u8; VARIABLES], 0, v);
    decide(present, memo, vars, CLOSED, entry, sets::single(u), &mut f);
    sets::has(f[u], v)
}

// The same, with a memo that has a slot for each entry; out of line, so that no caller has the memo in its frame.
#[inline(never)]
fn holds_shared(present: &Present, entry: usize, u: usize, v: usize) -> bool
    requires bound { (entry < (terms_of present.now.terms.now).entries) × (u < (terms_of present.now.terms.now).members) × (v < (terms_of present.now.terms.now).members) }
    ensures { result ≡ now_at (terms_of present.now.terms.now) present.now.relations.now present.now.past.now (assign (λ x. 0) 0 v) entry u }
{
    let mut memo = [0u64; memo::WORDS];
    memo::prepare(present.terms, present.index, &mut memo);
    holds_at(present, &mut memo, entry, u, v)
}

// The same. An entry that is brief has no memo, and its not and or are settled operand by operand: the second
// only if the first does not decide.
pub fn settle(present: &Present, entry: usize, u: usize, v: usize, brief: bool) -> bool
    requires bound { (entry < (terms_of present.now.terms.now).entries) × (u < (terms_of present.now.terms.now).members) × (v < (terms_of present.now.terms.now).members) }
    ensures { result ≡ now_at (terms_of present.now.terms.now) present.now.relations.now present.now.past.now (assign (λ x. 0) 0 v) entry u }
{
    if !brief {
        return holds_shared(present, entry, u, v);
    }
    let op = layout::op_of(present.terms, entry);
    let a = layout::first_of(present.terms, entry);
    if op == NOT {
        return !settle(present, a, u, v, true);
    }
    if op == OR {
        if settle(present, a, u, v, true) {
            return true;
        }
        return settle(present, layout::second_of(present.terms, entry), u, v, true);
    }
    let mut memo = [0u64; 1];
    holds_at(present, &mut memo, entry, u, v)
}
