// Tables with two columns: each row, of members a and b, goes to the quarter of their new
// numbers, with its bits at theirs.
ghost use Rattle.std.specs.Prelude.{◌≡◌, true, ℕ, ◌+◌, ◌*◌, ◌<◌, length, get_or};
ghost use Rattle.sets.specs.Sets.{bit};
ghost use Rattle.theory.specs.Terms.{tables};
ghost use Rattle.theory.specs.NewNumbers.{new_number};
ghost use Rattle.memory.specs.Layout.{block_words, terms_of};
ghost use Rattle.memory.specs.Checks.{good_memory};
ghost use Rattle.memory.specs.TableIndex.{Indexed};
ghost use Rattle.renumber.specs.private.Spread.{Bytes};
ghost use Rattle.renumber.specs.private.PairRows.{Few, Gone, is_pairs};

use memory::layout::{entries, op_of, word};
use memory::limits::RELATIONS;
use memory::table_index;
use sets::quarters;

// The words of a member, and the rows of a word.
const WORDS: usize = 4;

// The members of such a table.
const MEMBERS: usize = 16;

// Moves the four rows of word j of member a.
fn move_word(from: &[u64], a: usize, j: usize, all: &[u8], bytes: &[u64], into: &mut [u64])
    requires from_len { (length from.now ≡ block_words) × (a < 16) × (j < 4) × (length all.now ≡ block_words) }
    requires bytes { Bytes (new_number all.now) bytes.now × Few (new_number all.now) }
    requires gone { Gone (new_number all.now) (λ a. get_or from.now a 0) into.old (16 * a + 4 * j) }
    ensures { Gone (new_number all.now) (λ a. get_or from.now a 0) into.new (16 * a + 4 * j + 4) }
{
    let w = from[WORDS * a + j];
    let at = WORDS * crate::number_of(all, a);
    for q in 0..WORDS {
        let b = crate::number_of(all, WORDS * j + q);
        let row = crate::spread_part(bytes, 0, quarters::quarter(w, q));
        let k = at + b / WORDS;
        into[k] = quarters::with_quarter(into[k], b % WORDS, row);
    }
}

// Moves the rows of member a. Most words of a sparse table are 0.
fn move_member(from: &[u64], a: usize, all: &[u8], bytes: &[u64], into: &mut [u64])
    requires from_len { (length from.now ≡ block_words) × (a < 16) × (length all.now ≡ block_words) }
    requires bytes { Bytes (new_number all.now) bytes.now × Few (new_number all.now) }
    requires gone { Gone (new_number all.now) (λ a. get_or from.now a 0) into.old (16 * a) }
    ensures { Gone (new_number all.now) (λ a. get_or from.now a 0) into.new (16 * a + 16) }
{
    for j in 0..WORDS {
        if from[WORDS * a + j] != 0 {
            move_word(from, a, j, all, bytes, into);
        }
    }
}

// Moves the rows of a table.
pub(crate) fn move_table(from: &[u64], all: &[u8], bytes: &[u64], into: &mut [u64])
    requires from_len { (length from.now ≡ block_words) × (length into.old ≡ block_words) × (length all.now ≡ block_words) }
    requires bytes { Bytes (new_number all.now) bytes.now × Few (new_number all.now) }
    ensures { Gone (new_number all.now) (λ a. get_or from.now a 0) into.new 256 }
{
    crate::clear(into);
    for a in 0..MEMBERS {
        move_member(from, a, all, bytes, into);
    }
}

// The set of the blocks that are tables with two columns, by the index.
pub(crate) fn two_columns(terms: &[u16], index: &[u16]) -> u64
    requires { (good_memory terms.now ≡ true) × Indexed (terms_of terms.now) index.now }
    ensures { (b : ℕ) → bit result b ≡ is_pairs (terms_of terms.now) (tables (terms_of terms.now)) b }
{
    let mut two: u64 = 0;
    for n in 0..entries(terms) {
        let p = word(index, n);
        if table_index::is_past(op_of(terms, n)) && table_index::is_pair(p) {
            two = sets::with(two, RELATIONS + table_index::table_of(p));
        }
    }
    two
}
