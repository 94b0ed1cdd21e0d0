// How many rows a request may work out, before its terms are taken (specs/Effort.antt). It is a bound: what a request
// takes is mostly far less.
#![tactic(auto)]

ghost use Rattle.std.specs.Prelude.{◌≡◌, ◌+◌, ◌<◌, ◌≤◌};
ghost use Rattle.theory.specs.Limits.{max_entries};
ghost use Rattle.memory.specs.Layout.{terms_of};
ghost use Rattle.memory.specs.private.Operands.{operand_kind};
ghost use Rattle.effort.specs.Effort.{smaller, cut, times, set_of, sets_of, is_one, rows_of, calls_of, asked_of, more, more_if, is_entry, more_of, policies, rows_at, calls_after, asked_after, total, brief, effort};

use memory::limits::{ENTRIES, PAIR_MEMBERS};
use memory::operands::{Kind, operands_of};
use memory::{layout, table_index};
use theory::operators::{BIND, NOT, OUT};

// The most that is counted: 2 to the power of 31, a number of any machine.
const MOST: u64 = 2147483648;

// What is decided without a memo in a request: so many entries at each member.
const BRIEF: u64 = 2048;

// The most members with which a table has two columns.
const PAIRS: u64 = PAIR_MEMBERS as u64;

// Fewer entries than these may be decided without a memo whatever they cost.
const SMALL: usize = 10;

#[tactic(auto, unfolding(crate::specs::Effort::smaller))]
fn smaller(x: u64, y: u64) -> u64
    ensures { result ≡ smaller x y }
{
    x.min(y)
}

#[tactic(auto, unfolding(crate::specs::Effort::smaller))]
fn plus(x: u64, y: u64) -> u64
    ensures { result ≡ cut (x + y) }
{
    smaller(x.saturating_add(y), MOST)
}

fn times(n: u64, x: u64) -> u64
    requires { n < 65536 }
    ensures { result ≡ times n x }
{
    smaller(n * smaller(x, MOST), MOST)
}

// The set of variables that an entry reads, from those of its operands.
fn set_of(op: usize, a: usize, f: u64, g: u64, h: u64) -> u64
    ensures { result ≡ set_of op a f g h }
{
    let s = table_index::free_of(op, a, f, g, h);
    if table_index::is_past(op) && s == 0 {
        1
    } else {
        s
    }
}

// Fills in the sets of variables that the entries read.
fn fill_sets(terms: &[u16], sets: &mut [u64; ENTRIES])
    requires { ((terms_of terms.now).entries ≤ max_entries) × (sets.old ≡ sets_of (terms_of terms.now) 0) }
    ensures { sets.new ≡ sets_of (terms_of terms.now) (terms_of terms.now).entries }
{
    let n = layout::entries(terms);
    for i in 0..n {
        let a = layout::first_of(terms, i);
        let f = table_index::set_at(&sets[..], a);
        let g = table_index::set_at(&sets[..], layout::second_of(terms, i));
        let h = table_index::set_at(&sets[..], layout::third_of(terms, i));
        sets[i] = set_of(layout::op_of(terms, i), a, f, g, h);
    }
}

// Whether entry p reads at most one variable.
#[tactic(auto, unfolding(crate::specs::Effort::is_one))]
fn is_one(sets: &[u64; ENTRIES], p: usize) -> bool
    ensures { result ≡ is_one sets.now p }
{
    sets::rest_of(table_index::set_at(sets, p)) == 0
}

// How many rows of an entry are worked out, of those that are asked for.
#[tactic(auto, unfolding(crate::specs::Effort::rows_of))]
fn rows_of(op: usize, one: bool, asked: u64, limit: u64) -> u64
    ensures { result ≡ rows_of op one asked limit }
{
    if op < NOT || table_index::is_past(op) {
        return 0;
    }
    if one { smaller(asked, limit) } else { asked }
}

// How often an entry asks for each of its operands, and for how many rows, in all.
#[tactic(auto, unfolding(crate::specs::Effort::calls_of))]
fn calls_of(n: u64, op: usize, one: bool, works: u64, rows: u64) -> u64
    ensures { result ≡ calls_of n op one works rows }
{
    if table_index::is_past(op) {
        return if one { 1 } else { n };
    }
    if op == BIND { rows } else { works }
}

#[tactic(auto, unfolding(crate::specs::Effort::asked_of))]
fn asked_of(n: u64, op: usize, one: bool, works: u64, rows: u64) -> u64
    requires { n < 65536 }
    ensures { result ≡ asked_of n op one works rows }
{
    if table_index::is_past(op) {
        return if one { n } else { n * n };
    }
    if op < OUT || op == BIND {
        rows
    } else {
        times(n, works)
    }
}

// Adds x to word k, if there is one.
#[tactic(auto, unfolding(crate::specs::Effort::more))]
fn add(words: &mut [u64; ENTRIES], k: usize, x: u64)
    ensures { words.new ≡ more k x words.old }
{
    if k < ENTRIES {
        words[k] = plus(words[k], x);
    }
}

// The same if it is to be so.
#[tactic(auto, unfolding(crate::specs::Effort::more_if))]
fn add_if(yes: bool, words: &mut [u64; ENTRIES], k: usize, x: u64)
    ensures { words.new ≡ more_if yes k x words.old }
{
    if yes {
        add(words, k, x);
    }
}

#[tactic(auto, unfolding(crate::specs::Effort::is_entry))]
fn is_entry(kind: Kind) -> bool
    ensures { result ≡ is_entry (operand_kind kind) }
{
    matches!(kind, Kind::Entry)
}

// Adds x to the words of the operands of entry p that are entries.
fn add_to_operands(terms: &[u16], p: usize, words: &mut [u64; ENTRIES], x: u64)
    ensures { words.new ≡ more_of ((terms_of terms.now).entry p) x words.old }
{
    let kinds = operands_of(layout::op_of(terms, p));
    add_if(is_entry(kinds.first), words, layout::first_of(terms, p), x);
    add_if(
        is_entry(kinds.second),
        words,
        layout::second_of(terms, p),
        x,
    );
    add_if(is_entry(kinds.third), words, layout::third_of(terms, p), x);
}

// Counts the policy of each event once.
fn add_policies(terms: &[u16], words: &mut [u64; ENTRIES])
    requires { words.old ≡ policies (terms_of terms.now) 0 }
    ensures { words.new ≡ policies (terms_of terms.now) (terms_of terms.now).events }
{
    let n = layout::events(terms);
    for j in 0..n {
        add(words, layout::policy_of(terms, j), 1);
    }
}

// The number of members.
fn members_of(terms: &[u16]) -> u64
    ensures { (result ≡ (terms_of terms.now).members) × (result < 65536) }
{
    layout::members(terms) as u64
}

// The rows of entry p that are worked out; what it asks of its operands is added to theirs.
fn turn(
    terms: &[u16],
    sets: &[u64; ENTRIES],
    limit: u64,
    calls: &mut [u64; ENTRIES],
    asked: &mut [u64; ENTRIES],
    p: usize,
) -> u64
    ensures value { result ≡ rows_at (terms_of terms.now) sets.now limit asked.old p }
    ensures calls_after { calls.new ≡ calls_after (terms_of terms.now) sets.now limit calls.old asked.old p }
    ensures asked_after { asked.new ≡ asked_after (terms_of terms.now) sets.now limit calls.old asked.old p }
{
    let n = members_of(terms);
    let op = layout::op_of(terms, p);
    let one = is_one(sets, p);
    let rows = rows_of(op, one, table_index::set_at(&asked[..], p), limit);
    let works = smaller(table_index::set_at(&calls[..], p), rows);
    add_to_operands(terms, p, calls, calls_of(n, op, one, works, rows));
    add_to_operands(terms, p, asked, asked_of(n, op, one, works, rows));
    rows
}

// The rows of all entries, from the highest down.
fn total(terms: &[u16], sets: &[u64; ENTRIES], limit: u64) -> u64
    ensures { result ≡ total (terms_of terms.now) sets.now limit }
{
    let mut calls = [0u64; ENTRIES];
    let mut asked = [0u64; ENTRIES];
    add_policies(terms, &mut calls);
    add_policies(terms, &mut asked);
    let n = layout::entries(terms);
    let mut rows: u64 = 0;
    for p in (0..n).rev() {
        let r = turn(terms, sets, limit, &mut calls, &mut asked, p);
        rows = plus(rows, r);
    }
    rows
}

// What is decided without a memo.
#[tactic(auto, unfolding(crate::specs::Effort::brief))]
fn brief_of(n: u64) -> u64
    requires { n < 65536 }
    ensures { result ≡ brief n }
{
    if PAIRS < n { BRIEF * n } else { BRIEF * n * n }
}

// How many rows a request may work out by accepted terms, at most; MOST stands for more, too. Of words that are no
// accepted terms it says nothing.
pub fn effort(terms: &[u16]) -> u64
    ensures { result ≡ effort terms.now }
{
    let count = layout::entries(terms);
    if ENTRIES < count {
        return MOST;
    }
    let mut sets = [0u64; ENTRIES];
    fill_sets(terms, &mut sets);
    let plain = total(terms, &sets, MOST);
    if count < SMALL {
        return plain;
    }
    let n = members_of(terms);
    let shared = total(terms, &sets, 3 * (n * n + n));
    smaller(plain, plus(shared, brief_of(n)))
}
