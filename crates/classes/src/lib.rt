// Which old entry has the same fully spelled-out formula as a new one (docs/SCOPE.md, New terms). It is found without
// spelling out, by classes: the class of an entry is the first old entry with its formula, or the number of old
// entries. An entry's key is its operator and operands in one number, entries among these by their classes.
#![tactic(auto)]

ghost use Rattle.std.specs.Prelude.{◌≡◌, true, ℕ, ◌<◌, ◌≤◌, ◌+◌, ◌%◌, ◌/◌, length};
ghost use Rattle.theory.specs.Limits.{max_entries};
ghost use Rattle.memory.specs.Layout.{terms_of};
ghost use Rattle.memory.specs.private.Operands.{operand_kind};
ghost use Rattle.classes.specs.private.Keys.{normal, marked, Marked};
ghost use Rattle.classes.specs.private.Filled.{counted, found, key_by, own_filled, filled, classes_of};

use memory::layout;
use memory::limits::ENTRIES;
use memory::operands::{Kind, operands_of};

// Words of marks, and a prime below the number of their bits.
const MARKS: usize = 64;

const BUCKETS: u64 = 4093;

// What an operand counts for: the class c where it is an entry.
fn normal_of(kind: Kind, x: usize, c: usize) -> usize
    ensures by_index { (f : ℕ → ℕ) → c ≡ f x → result ≡ normal (operand_kind kind) f x }
    ensures upper_bound { x < 65536 → c < 65536 → result < 65536 }
{
    match kind {
        Kind::Unused => 0,
        Kind::Entry => c,
        Kind::Variable | Kind::Binder | Kind::Label | Kind::Count => x,
    }
}

// The key of entry n by the classes of entries.
fn key_of(terms: &[u16], classes: &[u16], n: usize) -> u64
    ensures { result ≡ key_by (terms_of terms.now) classes.now n }
{
    let op = layout::op_of(terms, n);
    let kinds = operands_of(op);
    let x = layout::first_of(terms, n);
    let y = layout::second_of(terms, n);
    let z = layout::third_of(terms, n);
    let a = normal_of(kinds.first, x, layout::word(classes, x));
    let b = normal_of(kinds.second, y, layout::word(classes, y));
    let c = normal_of(kinds.third, z, layout::word(classes, z));
    (((op * 65536 + a) * 65536 + b) * 65536 + c) as u64
}

// Whether a key is marked. One that is not is none of those that were.
fn is_marked(marks: &[u64], key: u64) -> bool
    requires { length marks.now ≡ 64 }
    ensures { result ≡ marked marks.now key }
{
    let b = (key % BUCKETS) as usize;
    sets::has(marks[b / 64], b % 64)
}

// Marks a key.
fn mark(marks: &mut [u64], key: u64)
    requires { length marks.old ≡ 64 }
    ensures marks_len { length marks.new ≡ 64 }
    ensures key_after { marked marks.new key ≡ true }
    ensures by_index { (k : ℕ) → marked marks.old k ≡ true → marked marks.new k ≡ true }
{
    let b = (key % BUCKETS) as usize;
    let w = b / 64;
    marks[w] = sets::with(marks[w], b % 64);
}

// The first of the keys below limit that is this one, or limit.
fn first_same(keys: &[u64], limit: usize, key: u64) -> usize
    requires { limit ≤ length keys.now }
    ensures { (result ≡ found keys.now limit key) × (result ≤ limit) }
{
    for k in 0..limit {
        if keys[k] == key {
            return k;
        }
    }
    limit
}

// The same, where those keys are marked.
fn lookup(keys: &[u64], marks: &[u64], limit: usize, key: u64) -> usize
    requires { (limit ≤ length keys.now) × (length marks.now ≡ 64) × Marked keys.now marks.now limit }
    ensures { (result ≡ found keys.now limit key) × (result ≤ limit) }
{
    if is_marked(marks, key) {
        first_same(keys, limit, key)
    } else {
        limit
    }
}

// The number of entries that the terms say, or the most that there may be.
fn count_of(terms: &[u16]) -> usize
    ensures { (result ≡ counted terms.now) × (result ≤ max_entries) }
{
    layout::entries(terms).min(ENTRIES)
}

// Fills in the classes and keys of the first count entries of terms among themselves, and marks the keys.
fn old_classes(
    terms: &[u16],
    count: usize,
    classes: &mut [u16],
    keys: &mut [u64],
    marks: &mut [u64],
)
    requires { (count ≤ max_entries) × (length classes.old ≡ max_entries) × (length keys.old ≡ max_entries) × (length marks.old ≡ 64) }
    ensures keys_after { keys.new ≡ (own_filled (terms_of terms.now) count classes.old keys.old).1 }
    ensures keys_len { (length keys.new ≡ max_entries) × (length marks.new ≡ 64) × Marked keys.new marks.new count }
{
    for n in 0..count {
        let key = key_of(terms, &classes[..], n);
        let k = lookup(&keys[..], &marks[..], n, key);
        classes[n] = k as u16;
        keys[n] = key;
        mark(marks, key);
    }
}

// Fills in the classes of the first count entries of terms among those with the first limit keys, which are marked.
// Not joined with old_classes, where keys and marks grow at each entry, and the limit with them.
fn new_classes(
    terms: &[u16],
    keys: &[u64],
    marks: &[u64],
    limit: usize,
    count: usize,
    classes: &mut [u16],
)
    requires limit_le_max_entries { (limit ≤ max_entries) × (count ≤ max_entries) × (length classes.old ≡ max_entries) }
    requires keys_len { (length keys.now ≡ max_entries) × (length marks.now ≡ 64) × Marked keys.now marks.now limit }
    ensures { classes.new ≡ filled (terms_of terms.now) keys.now limit count classes.old }
{
    for n in 0..count {
        let key = key_of(terms, &classes[..], n);
        let k = lookup(keys, marks, limit, key);
        classes[n] = k as u16;
    }
}

// Fills in, for each entry of new, the first entry of old with the same fully spelled-out formula, or the number of
// entries of old. Words that are no good terms are compared alike.
pub fn find_classes(old: &[u16], new: &[u16], classes: &mut [u16; ENTRIES])
    ensures classes_after { classes.new ≡ classes_of old.now new.now classes.old }
    ensures classes_len { length classes.new ≡ max_entries }
{
    let mut olds = [0u16; ENTRIES];
    let mut keys = [0u64; ENTRIES];
    let mut marks = [0u64; MARKS];
    let limit = count_of(old);
    let count = count_of(new);
    old_classes(old, limit, &mut olds, &mut keys, &mut marks);
    new_classes(new, &keys, &marks, limit, count, classes);
}
