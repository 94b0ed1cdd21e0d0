// The set of the tables with two columns, which a T line says with five fields.
ghost use Rattle.std.specs.Prelude.{◌≡◌, true, ◌&&◌, ◌||◌, not, ℕ, ◌≤◌, eqb, ltb, length};
ghost use Rattle.sets.specs.Sets.{bit};
ghost use Rattle.memory.specs.Layout.{terms_of, terms_words};
ghost use Rattle.memory.specs.Checks.{good_memory};
ghost use Rattle.memory.specs.TableIndex.{index_table, index_first, index_last, Indexed};
ghost use Rattle.writer.specs.private.Kinds.{Paired};

use memory::{layout, table_index};
use sets::with;

// The set with the table of a word of the index, if that has two columns.
fn with_pair(pairs: u64, p: usize) -> u64
    ensures { (t : ℕ) → bit result t ≡ (bit pairs t || (not (eqb (index_first p) (index_last p)) && (ltb t 64 && eqb t (index_table p)))) }
{
    if table_index::is_pair(p) {
        with(pairs, table_index::table_of(p))
    } else {
        pairs
    }
}

// The set of all of them.
pub(crate) fn pair_tables(terms: &[u16], index: &[u16]) -> u64
    requires { (terms_words ≤ length terms.now) × (good_memory terms.now ≡ true) × Indexed (terms_of terms.now) index.now }
    ensures { Paired (terms_of terms.now) result }
{
    let mut pairs = 0;
    for n in 0..layout::entries(terms) {
        if table_index::is_past(layout::op_of(terms, n)) {
            pairs = with_pair(pairs, layout::word(index, n));
        }
    }
    pairs
}
