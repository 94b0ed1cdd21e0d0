// Whether a decision, or a sweep over the tables, is brief enough to need no memo. Any answer
// is right; it is only about time.
ghost use Rattle.std.specs.Prelude.{◌<◌, ◌≤◌};

use memory::limits::MEMBERS;
use memory::{layout, table_index};
use theory::operators::{BIND, NOT, OR, PREV, REACH};

// What is decided without a memo: so many entries, each counted as often as it is used.
const FEW: usize = 1024;

// What an entry counts for under a bind that is decided for many members, once for each.
const BOUND: usize = MEMBERS;

// Fewer entries than these, with one bind at most, are never too many.
const SMALL: usize = 10;

// What an entry counts for.
fn cost(bound: bool) -> usize
    ensures { 0 < result }
{
    if bound { BOUND } else { 1 }
}

// What is left of so many when an entry is decided without a memo, for one member or for many, under such a bind or
// not; 0 where it takes more, or where such binds nest. Leaves and past-time entries are read, not worked out.
fn left_after(terms: &[u16], entry: usize, bound: bool, many: bool, left: usize) -> usize
    ensures { result ≤ left }
{
    let op = layout::op_of(terms, entry);
    if (op < NOT) | table_index::is_past(op) {
        return left;
    }
    let one = cost(bound);
    if left < one {
        return 0;
    }
    let rest = left - one;
    if op == NOT {
        return left_after(terms, layout::first_of(terms, entry), bound, many, rest);
    }
    let b = layout::second_of(terms, entry);
    if op == OR {
        let then = left_after(terms, layout::first_of(terms, entry), bound, many, rest);
        return left_after(terms, b, bound, many, then);
    }
    if op == REACH {
        let then = left_after(terms, b, bound, many, rest);
        return left_after(terms, layout::third_of(terms, entry), bound, true, then);
    }
    if op == BIND {
        if bound & many {
            return 0;
        }
        return left_after(terms, b, bound | many, false, rest);
    }
    left_after(terms, b, bound, true, rest)
}

// Whether there are few entries, and one bind at most. (Words of entries that there are not are 0, which is no bind.)
fn are_few(terms: &[u16]) -> bool {
    layout::entries(terms) < SMALL
        && (0..SMALL)
            .filter(|i| layout::op_of(terms, *i) == BIND)
            .count()
            < 2
}

// Whether an entry is decided without a memo.
pub fn is_brief(terms: &[u16], entry: usize) -> bool {
    are_few(terms) || 0 < left_after(terms, entry, false, false, FEW)
}

// What is left of so many when the operands of entry n, if that is a past-time one, are decided without a memo.
fn left_after_turn(terms: &[u16], n: usize, left: usize) -> usize {
    let op = layout::op_of(terms, n);
    if !table_index::is_past(op) {
        return left;
    }
    let then = left_after(terms, layout::first_of(terms, n), false, true, left);
    if op == PREV {
        return then;
    }
    left_after(terms, layout::second_of(terms, n), false, true, then)
}

// Whether the tables are moved on without a memo.
pub fn are_brief(terms: &[u16]) -> bool {
    if are_few(terms) {
        return true;
    }
    let mut left = FEW;
    for i in 0..layout::entries(terms) {
        left = left_after_turn(terms, i, left);
    }
    0 < left
}
