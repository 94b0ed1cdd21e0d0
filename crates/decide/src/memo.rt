// Rows that are remembered while entries are decided, in a lent memo: a slot for each entry, as
// far as the memo is long enough.
ghost use Rattle.std.specs.Prelude.{◌≡◌, true, false, cond, ◌&&◌, ◌||◌, List, ℕ, ◌+◌, ◌*◌, ◌/◌, ◌%◌, ◌<◌, ◌≤◌, eqb, ltb, length, get_or, MatchOption, IfSome};
ghost use Rattle.std.specs.Int.Bits.{bit_and};
ghost use Rattle.sets.specs.Sets.{bit};
ghost use Rattle.theory.specs.Limits.{max_members, variables};
ghost use Rattle.memory.specs.Layout.{block_words, terms_of};
ghost use Rattle.memory.specs.Checks.{good_memory};
ghost use Rattle.theory.specs.Formula.{Formula, node, first_operand, second_operand, third_operand, is_past, columns};
ghost use Rattle.theory.specs.Formula.Operand.{variable, entry};
ghost use Rattle.deciding.specs.private.Rows.{assigned, Has};
ghost use Rattle.memory.specs.TableIndex.{index_columns, Indexed};
ghost use Rattle.deciding.specs.private.Memo.{reads, slot_words, slot_of, byte_of, value_of, have_of, reads_of, column_of, knows, Under, Memo, Apart, Fresh, Missing, Put, Shown, Stored};

use deciding::slot::{BYTES, COLUMN, HAVE, KNOWN, READS, SLOT, VALUES};
use memory::limits::{ENTRIES, MEMBERS, VARIABLES};
use memory::{layout, table_index};
use sets::members::Members;
use theory::operators::NOT;

// The words of a memo with a slot for each entry.
pub const WORDS: usize = SLOT * ENTRIES;

fn wide(x: u8) -> u64
    ensures { (result ≡ x) × (result < 256) }
{
    x as u64
}

// Byte i of a word.
fn byte_of(w: u64, i: usize) -> u64
    requires { i < 8 }
    ensures { result ≡ byte_of w i }
{
    (w >> (BYTES * i)) % 256
}

// What variable y stood for.
fn value_of(slot: &[u64], y: usize) -> u64
    requires { (length slot.now ≡ slot_words) × (y < variables) }
    ensures { result ≡ value_of slot.now y }
{
    byte_of(slot[VALUES + y / BYTES], y % BYTES)
}

// What eight variables stand for, from k on, each as a byte.
fn packed(vars: &[u8; VARIABLES], k: usize) -> u64
    requires { k < 9 }
    ensures { (i : ℕ) → i < 8 → byte_of result i ≡ assigned vars.now (k + i) }
{
    let mut w: u64 = 0;
    for i in (0..BYTES).rev() {
        w = w * 256 + wide(vars[k + i]);
    }
    w
}

// The least variable, but the column, that the entry reads and that stood for something else.
fn differing(slot: &[u64], vars: &[u8; VARIABLES]) -> Option<usize>
    requires { length slot.now ≡ slot_words }
    ensures { MatchOption result (Under slot.now (assigned vars.now)) (λ y. y < variables) }
{
    let read = sets::without(slot[READS] & sets::mask(VARIABLES), slot[COLUMN] as usize);
    for y in Members::of(read) {
        if value_of(slot, y) != wide(vars[y]) {
            return Some(y);
        }
    }
    None
}

// Leaves a slot with no rows, for these variables, with column z.
fn claim(slot: &mut [u64], vars: &[u8; VARIABLES], z: usize)
    requires { length slot.old ≡ slot_words }
    ensures slot_after { (have_of slot.new ≡ 0) × (reads_of slot.new ≡ reads_of slot.old) × (column_of slot.new ≡ z) }
    ensures by_index { (y : ℕ) → y < variables → value_of slot.new y ≡ assigned vars.now y }
{
    slot[HAVE] = 0;
    slot[COLUMN] = z as u64;
    slot[VALUES] = packed(vars, 0);
    slot[VALUES + 1] = packed(vars, BYTES);
}

// What variable z stands for; 0 where z is none. (decide::member_of asks for a variable, and has no test.)
fn standing(vars: [u8; VARIABLES], z: usize) -> usize
    ensures { result ≡ assigned vars z }
{
    if z < VARIABLES { vars[z] as usize } else { 0 }
}

// The bits of a row that are asked for: all, or that of c.
fn asked(whole: bool, c: usize) -> u64
    ensures { Has result (λ b. cond whole (ltb b max_members) (ltb b max_members && eqb b c)) }
{
    if whole {
        sets::mask(MEMBERS)
    } else {
        sets::single(c)
    }
}

// The set of a, unless all of ask is known.
fn unless_known(known: u64, ask: u64, a: usize) -> u64
    ensures { ((m : ℕ) → bit result m ≡ true → m ≡ a) × (a < max_members → bit result a ≡ false → (b : ℕ) → bit ask b ≡ true → bit known b ≡ true) }
{
    if known & ask == ask {
        0
    } else {
        sets::single(a)
    }
}

// The members of want of whose rows not all of ask is known.
fn lacking(slot: &[u64], ask: u64, want: u64) -> u64
    requires { length slot.now ≡ slot_words }
    ensures by_index { (a : ℕ) → bit result a ≡ true → bit want a ≡ true }
    ensures by_index_2 { (a : ℕ) → bit want a ≡ true → bit result a ≡ false → (b : ℕ) → bit ask b ≡ true → knows slot.now a b ≡ true }
{
    let had = want & slot[HAVE];
    let mut need = want ^ had;
    for a in Members::of(had) {
        need |= unless_known(slot[KNOWN + a], ask, a);
    }
    need
}

// The members of want whose row is not in the slot, which is then one for these variables.
fn missing_in(slot: &mut [u64], vars: &[u8; VARIABLES], x: usize, want: u64) -> u64
    requires { length slot.old ≡ slot_words }
    ensures { Missing (assigned vars.now) x want result slot.old slot.new }
{
    let whole = sets::has(slot[READS], x);
    let z = slot[COLUMN] as usize;
    if whole && z != x {
        claim(slot, vars, x);
        return want;
    }
    let Some(y) = differing(slot, vars) else {
        return lacking(slot, asked(whole, standing(*vars, z)), want);
    };
    claim(slot, vars, if whole { x } else { y });
    want
}

// The number of the slot in which the rows of the entry are kept, which is the entry's; none, if the memo is too
// short, or the entry is a leaf (the operators before NOT are leaves).
pub(crate) fn slot_for(memo: &[u64], op: usize, entry: usize) -> Option<usize>
    requires { entry < 65536 }
    ensures { IfSome result (λ k. (k ≡ entry) × (slot_words * k + slot_words ≤ length memo.now)) }
{
    if SLOT * entry + SLOT <= memo.len() && NOT <= op && !table_index::is_past(op) {
        Some(entry)
    } else {
        None
    }
}

// The members of want whose row is not in the slot; all of them, if there is none.
pub(crate) fn missing(
    memo: &mut [u64],
    slot: Option<usize>,
    vars: &[u8; VARIABLES],
    x: usize,
    want: u64,
) -> u64
    requires { IfSome slot (λ k. slot_words * k + slot_words ≤ length memo.old) }
    ensures { MatchOption slot ((result ≡ want) × (memo.new ≡ memo.old)) (λ k. Missing (assigned vars.now) x want result (slot_of k memo.old) (slot_of k memo.new) × Apart k memo.old memo.new) }
{
    let Some(k) = slot else {
        return want;
    };
    let at = SLOT * k;
    missing_in(&mut memo[at..at + SLOT], vars, x, want)
}

// v, but at the members of ask as w.
fn mixed(v: u64, w: u64, ask: u64) -> u64
    ensures { (b : ℕ) → bit result b ≡ cond (bit ask b) (bit w b) (bit v b) }
{
    (v ^ (v & ask)) | (w & ask)
}

// What is known, if there was a row, and ask.
fn known_too(known: u64, had: bool, ask: u64) -> u64
    ensures { (b : ℕ) → bit result b ≡ ((had && bit known b) || bit ask b) }
{
    sets::only(had, known) | ask
}

// Adds the bits of ask in the rows of need to the slot.
fn put(slot: &mut [u64], rows: &[u64], ask: u64, need: u64)
    requires { (length slot.old ≡ slot_words) × (block_words ≤ length rows.now) }
    ensures { Put ask need rows.now slot.old slot.new }
{
    let have = slot[HAVE];
    for a in Members::of(need) {
        slot[a] = mixed(slot[a], rows[a], ask);
        slot[KNOWN + a] = known_too(slot[KNOWN + a], sets::has(have, a), ask);
    }
    slot[HAVE] = have | need;
}

// The row that a word of a slot stands for: its own bits, or all or none as it has c.
fn row_of(w: u64, whole: bool, c: usize, all: u64) -> u64
    ensures { result ≡ cond whole (bit_and all w) (cond (bit w c) all 0) }
{
    if whole {
        all & w
    } else {
        sets::only(sets::has(w, c), all)
    }
}

// Leaves those rows at the members of set.
fn show(out: &mut [u64], slot: &[u64], whole: bool, c: usize, all: u64, set: u64)
    requires { (block_words ≤ length out.old) × (block_words ≤ length slot.now) }
    ensures { Shown set (λ a. cond whole (bit_and all (get_or slot.now a 0)) (cond (bit (get_or slot.now a 0) c) all 0)) out.old out.new }
{
    for a in Members::of(set) {
        out[a] = row_of(slot[a], whole, c, all);
    }
}

// Adds the rows of need to the slot, and leaves the other rows of want from there.
fn keep_in(
    slot: &mut [u64],
    vars: &[u8; VARIABLES],
    x: usize,
    all: u64,
    need: u64,
    want: u64,
    out: &mut [u64],
)
    requires { (length slot.old ≡ slot_words) × (length out.old ≡ block_words) }
    ensures { Stored (assigned vars.now) x all need want slot.old out.old slot.new out.new }
{
    let whole = sets::has(slot[READS], x);
    let c = standing(*vars, slot[COLUMN] as usize);
    put(slot, out, asked(whole, c), need);
    show(out, slot, whole, c, all, want ^ (want & need));
}

// Remembers the rows of need in the slot, if there is one, and leaves the other rows of want from there. all has the
// members.
pub(crate) fn keep(
    memo: &mut [u64],
    slot: Option<usize>,
    vars: &[u8; VARIABLES],
    x: usize,
    all: u64,
    need: u64,
    want: u64,
    out: &mut [u64],
)
    requires slot { IfSome slot (λ k. slot_words * k + slot_words ≤ length memo.old) }
    requires out_len { length out.old ≡ block_words }
    ensures { MatchOption slot ((memo.new ≡ memo.old) × (out.new ≡ out.old)) (λ k. Stored (assigned vars.now) x all need want (slot_of k memo.old) out.old (slot_of k memo.new) out.new × Apart k memo.old memo.new) }
{
    if let Some(k) = slot {
        let at = SLOT * k;
        keep_in(&mut memo[at..at + SLOT], vars, x, all, need, want, out);
    }
}

// The variables that an entry reads, from those of its operands; a past-time entry, whose
// index word is p, reads its columns.
fn reads_of(op: usize, a: usize, p: usize, f: u64, g: u64, k: u64) -> u64
    ensures { (t b c x : ℕ) (h : ℕ → Formula) → (first_operand op ≡ variable → a < max_members) → (is_past op ≡ true → index_columns p ≡ columns (node t h op a b c)) → (first_operand op ≡ entry → reads (h a) x ≡ true → bit f x ≡ true) → (second_operand op ≡ entry → reads (h b) x ≡ true → bit g x ≡ true) → (third_operand op ≡ entry → reads (h c) x ≡ true → bit k x ≡ true) → reads (node t h op a b c) x ≡ true → bit result x ≡ true }
{
    if table_index::is_past(op) {
        sets::with(
            sets::single(table_index::first_of(p)),
            table_index::last_of(p),
        )
    } else {
        table_index::free_of(op, a, f, g, k)
    }
}

// Leaves a slot with no rows, for an entry that reads these variables.
fn empty(slot: &mut [u64], reads: u64)
    requires { length slot.old ≡ slot_words }
    ensures { (have_of slot.new ≡ 0) × (reads_of slot.new ≡ reads) }
{
    slot[HAVE] = 0;
    slot[READS] = reads;
    slot[COLUMN] = sets::least_of(reads) as u64;
}

// The same for the entry's slot, if there is one.
fn give(memo: &mut [u64], entry: usize, reads: u64)
    requires { entry < 65536 }
    ensures apart { Apart entry memo.old memo.new }
    ensures memo_after { slot_words * entry + slot_words ≤ length memo.old → (have_of (slot_of entry memo.new) ≡ 0) × (reads_of (slot_of entry memo.new) ≡ reads) }
{
    if SLOT * entry + SLOT <= memo.len() {
        let at = SLOT * entry;
        empty(&mut memo[at..at + SLOT], reads);
    }
}

// Makes lent words a memo with no rows.
pub fn prepare(terms: &[u16], index: &[u16], memo: &mut [u64])
    requires { (good_memory terms.now ≡ true) × Indexed (terms_of terms.now) index.now }
    ensures fresh { Fresh (terms_of terms.now).entries 0 memo.new }
    ensures by_index { (rel past : List ℕ) → Memo (terms_of terms.now) rel past (terms_of terms.now).entries memo.new }
{
    let n = layout::entries(terms);
    let mut reads = [0u64; ENTRIES];
    for i in 0..n {
        let a = layout::first_of(terms, i);
        let r = reads_of(
            layout::op_of(terms, i),
            a,
            layout::word(index, i),
            table_index::set_at(&reads, a),
            table_index::set_at(&reads, layout::second_of(terms, i)),
            table_index::set_at(&reads, layout::third_of(terms, i)),
        );
        reads[i] = r;
        give(memo, i, r);
    }
}
