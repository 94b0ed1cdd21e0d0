// Refusal 11: the first T line of a partly filled word, in a table without a free variable.
ghost use Rattle.std.specs.Prelude.{◌≡◌, ◌<◌, MatchOption};
ghost use Rattle.theory.specs.Terms.{past_entry};
ghost use Rattle.memory.specs.Layout.{terms_of};
ghost use Rattle.reader.specs.private.Partly.{table_word, partly_in, Found};

use fields::lines::Lines;
use file::line::{Line, parse_line};
use memory::check;
use memory::layout::{BLOCK, TABLES_AT, entries, members, op_of};
use memory::limits::TABLES;
use memory::table_index::{is_past, set_at};
use sets::mask;

// Past-time entry number t; 0 where there is none.
pub(crate) fn past_entry(terms: &[u16], t: usize) -> usize
    ensures { result ≡ past_entry (terms_of terms.now) t }
{
    let mut k = 0;
    for n in 0..entries(terms) {
        if is_past(op_of(terms, n)) {
            if k == t {
                return n;
            }
            k += 1;
        }
    }
    0
}

// Word a of table t; 0 where there is none.
fn table_word(state: &[u64], t: usize, a: usize) -> u64
    ensures { result ≡ table_word state.now t a }
{
    if TABLES <= t || BLOCK <= a {
        return 0;
    }
    set_at(state, TABLES_AT + BLOCK * t + a)
}

// Whether a line is a T line of a word that is not full, in a table without a free variable.
#[tactic(auto, unfolding(crate::specs::private::Partly::partly_in))]
fn is_partly(terms: &[u16], state: &[u64], masks: &[u64], full: u64, line: Line) -> bool
    ensures { result ≡ partly_in terms.now state.now masks.now full line }
{
    match line {
        Line::TableBit(t, a, _) => {
            set_at(masks, past_entry(terms, t)) == 0 && table_word(state, t, a) != full
        }
        _ => false,
    }
}

// The number of the first such line.
fn find_partly(text: &[u8], terms: &[u16], state: &[u64], masks: &[u64]) -> Option<usize>
    ensures { MatchOption result (Found text.now terms.now state.now masks.now 0) (λ n. (0 < n) × Found text.now terms.now state.now masks.now n) }
{
    let full = mask(members(terms));
    let mut n = 1;
    for bytes in Lines::of(text) {
        let line = parse_line(bytes?);
        if is_partly(terms, state, masks, full, line) {
            return Some(n);
        }
        n += 1;
    }
    None
}

// The same. The text is looked at again only where the words do not keep the layout.
pub(crate) fn partly_at(text: &[u8], terms: &[u16], state: &[u64], masks: &[u64]) -> Option<usize>
    ensures { MatchOption result (Found text.now terms.now state.now masks.now 0) (λ n. (0 < n) × Found text.now terms.now state.now masks.now n) }
{
    match check(terms, state) {
        Ok(()) => None,
        Err(_) => find_partly(text, terms, state, masks),
    }
}
