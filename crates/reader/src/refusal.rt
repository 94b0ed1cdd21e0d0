// The tests of a line against the counters, and its first fault.
#![tactic(auto, unfolding(file::specs::Reading::in_range, file::specs::Reading::is_lower, crate::specs::private::Testing::refused_by, crate::specs::private::Testing::number_from, crate::specs::private::Testing::context_tests))]

ghost use Rattle.std.specs.Prelude.{◌≡◌, ◌+◌, ◌*◌, ltb};
ghost use Rattle.theory.specs.Formula.{is_past};
ghost use Rattle.theory.specs.Columns.{pair_first};
ghost use Rattle.memory.specs.private.Operands.{operand_kind};
ghost use Rattle.memory.specs.Refusal.{fault_number};
ghost use Rattle.theory.specs.Fit.{◌⇒◌};
ghost use Rattle.file.specs.File.{event_named};
ghost use Rattle.file.specs.Reading.{test, in_range, is_lower};
ghost use Rattle.reader.specs.private.Testing.{found, refused_by, number_from, rising, rising_pair, is_pair, context_tests};
ghost use Rattle.file.specs.declared.line.Line.TheVariants.{Members, Labels, Entry, Policy, Effect, Edge, Form, TableBit, PairBit, EventEdge, Mark};

use crate::step::{Context, is_complete, slot_of};
use file::line::Line;
use memory::limits::{COUNT, EFFECTS, ENTRIES, EVENTS, MEMBERS, RELATIONS, TABLES, VARIABLES};
use memory::operands::{Kind, operands_of};
use memory::refusal::Fault;
use memory::table_index::{columns_fit, is_past};
use sets::rest_of;

// k, what the tests before have found; where they passed, the fault if this one fails.
fn first(k: Result<(), Fault>, fault: Fault, passes: bool) -> Result<(), Fault>
    ensures { found result ≡ refused_by (found k) (test (fault_number fault) passes) }
{
    k?;
    if passes { Ok(()) } else { Err(fault) }
}

// Whether a test passes that is made of prev and since entries only.
fn if_past(o: usize, passes: bool) -> bool
    ensures { result ≡ (is_past o ⇒ passes) }
{
    !is_past(o) || passes
}

// Whether v is a label, of r relations and e events, granted or denied.
fn is_label(r: usize, e: usize, v: usize) -> bool
    ensures { result ≡ ltb v (r + 2 * e) }
{
    v < r || (v - r) / 2 < e
}

// Whether an operand is in its range, if it is no entry.
fn in_range(kind: Kind, r: usize, e: usize, v: usize) -> bool
    ensures { result ≡ in_range (operand_kind kind) (r + 2 * e) v }
{
    match kind {
        Kind::Unused => v == 0,
        Kind::Variable => v < VARIABLES,
        Kind::Binder => 0 < v && v < VARIABLES,
        Kind::Label => is_label(r, e, v),
        Kind::Entry => true,
        Kind::Count => 0 < v && v <= COUNT,
    }
}

// Whether an operand, if it is an entry, is lower than entry n.
fn is_lower(kind: Kind, n: usize, v: usize) -> bool
    ensures { result ≡ is_lower (operand_kind kind) n v }
{
    !matches!(kind, Kind::Entry) || v < n
}

// The first fault of an M line.
fn members_fault(c: Context, n: usize, m: u64, reaches: bool) -> Result<(), Fault>
    ensures { found result ≡ number_from 0 (context_tests c m reaches (Members n)) }
{
    let k = first(Ok(()), Fault::Form, c.phase == 0);
    let k = first(k, Fault::Range, 0 < n);
    first(k, Fault::Range, n <= MEMBERS)
}

// The first fault of an L line.
fn labels_fault(c: Context, r: usize, e: usize, m: u64, reaches: bool) -> Result<(), Fault>
    ensures { found result ≡ number_from 0 (context_tests c m reaches (Labels r e)) }
{
    let k = first(Ok(()), Fault::Form, c.phase == 1);
    let k = first(k, Fault::Range, r <= RELATIONS);
    let k = first(k, Fault::Range, 0 < e);
    first(k, Fault::Range, e <= EVENTS)
}

// The first fault of an F line.
fn entry_fault(
    c: Context,
    n: usize,
    o: usize,
    a: usize,
    b: usize,
    d: usize,
    m: u64,
    reaches: bool,
) -> Result<(), Fault>
    ensures { found result ≡ number_from 0 (context_tests c m reaches (Entry n o a b d)) }
{
    let kinds = operands_of(o);
    let one = kinds.first;
    let two = kinds.second;
    let three = kinds.third;
    let k = first(Ok(()), Fault::Form, matches!(c.phase, 2 | 3));
    let k = first(k, Fault::Form, n == c.entries);
    let k = first(k, Fault::Range, n < ENTRIES);
    let k = first(k, Fault::Range, in_range(one, c.relations, c.events, a));
    let k = first(k, Fault::Range, in_range(two, c.relations, c.events, b));
    let k = first(k, Fault::Range, in_range(three, c.relations, c.events, d));
    let k = first(k, Fault::Range, if_past(o, c.tables < TABLES));
    let k = first(k, Fault::Operand, is_lower(one, n, a));
    let k = first(k, Fault::Operand, is_lower(two, n, b));
    let k = first(k, Fault::Operand, is_lower(three, n, d));
    let k = first(k, Fault::Past, if_past(o, columns_fit(m, c.members)));
    first(k, Fault::Reach, reaches)
}

// The first fault of a P line.
fn policy_fault(c: Context, j: usize, n: usize, m: u64, reaches: bool) -> Result<(), Fault>
    ensures { found result ≡ number_from 0 (context_tests c m reaches (Policy j n)) }
{
    let k = first(Ok(()), Fault::Form, matches!(c.phase, 2..=4));
    let k = first(k, Fault::Form, j == c.policies);
    let k = first(k, Fault::Form, j < c.events);
    let k = first(k, Fault::Range, n < c.entries);
    first(k, Fault::Policy, m < 2)
}

// The first fault of an E line.
fn effect_fault(
    c: Context,
    j: usize,
    a: usize,
    k: usize,
    d: usize,
    m: u64,
    reaches: bool,
) -> Result<(), Fault>
    ensures { found result ≡ number_from 0 (context_tests c m reaches (Effect j a k d)) }
{
    let p = first(Ok(()), Fault::Form, is_complete(c));
    let p = first(p, Fault::Form, c.phase <= 5);
    let p = first(p, Fault::Form, c.event <= j);
    let p = first(p, Fault::Range, j < c.events);
    let p = first(p, Fault::Range, slot_of(c, j) < EFFECTS);
    first(p, Fault::Range, k < c.relations)
}

// Whether an edge (kind 6) or a bit of a table (kind 7) comes after the last of its kind,
// by relation or table, from, to.
fn is_rising(kind: usize, c: Context, k: usize, a: usize, b: usize) -> bool
    ensures { result ≡ rising kind c k a b }
{
    c.phase < kind || c.relation < k || c.relation == k && (c.from < a || c.from == a && c.to < b)
}

// The first fault of a G line.
fn edge_fault(c: Context, k: usize, a: usize, b: usize, m: u64, reaches: bool) -> Result<(), Fault>
    ensures { found result ≡ number_from 0 (context_tests c m reaches (Edge k a b)) }
{
    let p = first(Ok(()), Fault::Form, is_complete(c));
    let p = first(p, Fault::Form, c.phase <= 6);
    let p = first(p, Fault::Form, is_rising(6, c, k, a, b));
    let p = first(p, Fault::Range, k < c.relations);
    let p = first(p, Fault::Range, a < c.members);
    first(p, Fault::Range, b < c.members)
}

// The first fault of an S line.
fn form_fault(c: Context, n: usize, m: u64, reaches: bool) -> Result<(), Fault>
    ensures { found result ≡ number_from 0 (context_tests c m reaches (Form n)) }
{
    let k = first(Ok(()), Fault::Form, c.phase == 0);
    let k = first(k, Fault::Form, !c.stored);
    first(k, Fault::Range, n == 2)
}

// The first fault of a T line.
fn bit_fault(c: Context, t: usize, a: usize, b: usize, m: u64, reaches: bool) -> Result<(), Fault>
    ensures { found result ≡ number_from 0 (context_tests c m reaches (TableBit t a b)) }
{
    let p = first(Ok(()), Fault::Form, c.stored);
    let p = first(p, Fault::Form, is_complete(c));
    let p = first(p, Fault::Form, c.phase <= 7);
    let p = first(p, Fault::Form, is_rising(7, c, t, a, b));
    let p = first(p, Fault::Form, !is_pair(c, m, t));
    let p = first(p, Fault::Range, t < c.tables);
    let p = first(p, Fault::Range, a < c.members);
    first(p, Fault::Range, b < c.members)
}

// The member of the first column, by word and bit of a table with two columns.
fn column_of(word: usize, bit: usize) -> usize
    ensures { result ≡ pair_first word bit }
{
    4 * (word % 4) + bit / 16
}

// Whether a bit of a table with two columns comes after the last bit, as they are written.
fn is_rising_pair(c: Context, t: usize, a: usize, b: usize, d: usize) -> bool
    ensures { result ≡ rising_pair c t a b d }
{
    let e = c.from / 4;
    let f = column_of(c.from, c.to);
    c.phase < 7
        || c.relation < t
        || c.relation == t && (e < a || e == a && (f < b || f == b && c.to % 16 < d))
}

// Whether table t is there and has two columns, where m has the free variables of its entry.
fn is_pair(c: Context, m: u64, t: usize) -> bool
    ensures { result ≡ is_pair c m t }
{
    t < c.tables && rest_of(m) != 0
}

// The first fault of a T line of a table with two columns.
fn pair_fault(
    c: Context,
    t: usize,
    a: usize,
    b: usize,
    d: usize,
    m: u64,
    reaches: bool,
) -> Result<(), Fault>
    ensures { found result ≡ number_from 0 (context_tests c m reaches (PairBit t a b d)) }
{
    let p = first(Ok(()), Fault::Form, c.stored);
    let p = first(p, Fault::Form, is_complete(c));
    let p = first(p, Fault::Form, c.phase <= 7);
    let p = first(p, Fault::Form, is_rising_pair(c, t, a, b, d));
    let p = first(p, Fault::Form, is_pair(c, m, t));
    let p = first(p, Fault::Range, a < c.members);
    let p = first(p, Fault::Range, b < c.members);
    first(p, Fault::Range, d < c.members)
}

// The event that a V line names: granted, or denied.
fn named(j: usize) -> usize
    ensures { result ≡ event_named j }
{
    if j < EVENTS { j } else { j - EVENTS }
}

// The first fault of a V line.
fn event_fault(c: Context, j: usize, u: usize, v: usize, m: u64, reaches: bool) -> Result<(), Fault>
    ensures { found result ≡ number_from 0 (context_tests c m reaches (EventEdge j u v)) }
{
    let p = first(Ok(()), Fault::Form, c.stored);
    let p = first(p, Fault::Form, is_complete(c));
    let p = first(p, Fault::Form, c.phase <= 7);
    let p = first(p, Fault::Range, named(j) < c.events);
    let p = first(p, Fault::Range, u < c.members);
    first(p, Fault::Range, v < c.members)
}

// The first fault of a K line.
fn mark_fault(c: Context, j: usize, m: u64, reaches: bool) -> Result<(), Fault>
    ensures { found result ≡ number_from 0 (context_tests c m reaches (Mark j)) }
{
    let p = first(Ok(()), Fault::Form, is_complete(c));
    let p = first(p, Fault::Form, c.phase <= 4);
    let p = first(p, Fault::Form, c.marks <= j);
    first(p, Fault::Range, j < c.events)
}

// The first fault of a line, which has the lowest number.
pub(crate) fn fault_of(c: Context, line: Line, m: u64, reaches: bool) -> Result<(), Fault>
    ensures { found result ≡ number_from 0 (context_tests c m reaches line) }
{
    match line {
        Line::Members(n) => members_fault(c, n, m, reaches),
        Line::Labels(r, e) => labels_fault(c, r, e, m, reaches),
        Line::Entry(n, o, a, b, d) => entry_fault(c, n, o, a, b, d, m, reaches),
        Line::Policy(j, n) => policy_fault(c, j, n, m, reaches),
        Line::Effect(j, a, k, d) => effect_fault(c, j, a, k, d, m, reaches),
        Line::Edge(k, a, b) => edge_fault(c, k, a, b, m, reaches),
        Line::Form(n) => form_fault(c, n, m, reaches),
        Line::TableBit(t, a, b) => bit_fault(c, t, a, b, m, reaches),
        Line::PairBit(t, a, b, d) => pair_fault(c, t, a, b, d, m, reaches),
        Line::EventEdge(j, u, v) => event_fault(c, j, u, v, m, reaches),
        Line::Mark(j) => mark_fault(c, j, m, reaches),
        Line::Malformed => Err(Fault::Form),
    }
}
