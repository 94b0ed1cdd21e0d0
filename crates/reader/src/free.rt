// Free variables as sets of bits, one for each entry.
ghost use Rattle.std.specs.Prelude.{◌≡◌};
ghost use Rattle.reader.specs.private.Testing.{table_set, LastSet, FreeIn, reach_in};

use crate::refusal_11::past_entry;
use file::line::Line;
use memory::table_index::{free_of, reach_fits, set_at};

// The free variables of the entry of table t. Where the line before was a T line of the same
// table, they are `last`, at hand.
fn table_set(phase: usize, table: usize, last: u64, terms: &[u16], masks: &[u64], t: usize) -> u64
    requires { LastSet terms.now masks.now phase table last }
    ensures { result ≡ table_set terms.now masks.now t }
{
    if phase == 7 && table == t {
        return last;
    }
    set_at(masks, past_entry(terms, t))
}

// The free variables that a line is tested by: those of the entry that it gives, of the policy that it
// names, or of the entry of its table.
pub(crate) fn free_in(
    phase: usize,
    table: usize,
    last: u64,
    terms: &[u16],
    masks: &[u64],
    line: Line,
) -> u64
    requires { LastSet terms.now masks.now phase table last }
    ensures { FreeIn terms.now masks.now line result }
{
    match line {
        Line::Entry(_, o, a, b, c) => free_of(
            o,
            a,
            set_at(masks, a),
            set_at(masks, b),
            set_at(masks, c),
        ),
        Line::Policy(_, n) => set_at(masks, n),
        Line::TableBit(t, _, _) => table_set(phase, table, last, terms, masks, t),
        Line::PairBit(t, _, _, _) => table_set(phase, table, last, terms, masks, t),
        _ => 0,
    }
}

// Whether the entry that a line gives, if it is a reach, may be one.
pub(crate) fn reach_in(masks: &[u64], line: Line) -> bool
    ensures { result ≡ reach_in masks.now line }
{
    match line {
        Line::Entry(_, o, a, b, c) => reach_fits(o, a, set_at(masks, b), set_at(masks, c)),
        _ => true,
    }
}
