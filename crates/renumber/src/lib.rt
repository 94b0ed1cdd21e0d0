// Members renumbered: a state is rewritten into a second lent state. Terms and state are checked as by every call.
#![tactic(auto)]

ghost use Rattle.std.specs.Prelude.{◌≡◌, true, ℕ, ◌+◌, ◌*◌, ◌<◌, ◌≤◌, length, get_or};
ghost use Rattle.sets.specs.Sets.{bit};
ghost use Rattle.memory.specs.Layout.{state_words, block_words, event_at, terms_of};
ghost use Rattle.memory.specs.Outcome.{outcome_of};
ghost use Rattle.theory.specs.NewNumbers.{new_number, renumbers};
ghost use Rattle.calls.specs.Renumbering.{renumbering, renumbered_state};
ghost use Rattle.memory.specs.Checks.{good_memory};
ghost use Rattle.memory.specs.TableIndex.{Indexed};
ghost use Rattle.renumber.specs.private.Spread.{spread, Doubled, ByteOf, Bytes, Apart, Placed, new_event, Moved, Rewritten};
ghost use Rattle.renumber.specs.private.PairRows.{Few};

use memory::layout;
use memory::limits::ENTRIES;
use memory::refusal::Refusal;

mod pairs;

const FROM_UNIT: usize = layout::FROM_UNIT as usize;

const EVENT_UNIT: usize = layout::EVENT_UNIT as usize;

// Relations and tables.
const BLOCKS: usize = layout::EVENT_AT / layout::BLOCK;

// The new number of m. What is no member keeps its number.
fn new_number(numbers: &[u8], m: usize) -> usize
    ensures value { result ≡ new_number numbers.now m }
    ensures upper_bound { m < 64 → result < 256 }
{
    if m < numbers.len() {
        numbers[m] as usize
    } else {
        m
    }
}

// A list of the new numbers of all 64.
fn fill_numbers(numbers: &[u8], all: &mut [u8])
    requires { length all.old ≡ block_words }
    ensures { (length all.new ≡ block_words) × ((m : ℕ) → m < block_words → get_or all.new m 0 ≡ new_number numbers.now m) }
{
    for m in 0..layout::BLOCK {
        all[m] = new_number(numbers, m) as u8;
    }
}

// The new number of m in such a list, with no test: new_number's would be made for each row.
pub(crate) fn number_of(all: &[u8], m: usize) -> usize
    requires { (length all.now ≡ block_words) × (m < block_words) }
    ensures value { result ≡ new_number all.now m }
    ensures upper_bound { result < 256 }
{
    all[m] as usize
}

// Whether the list has n numbers, and every number below n is in it.
fn are_new_numbers(numbers: &[u8], n: usize) -> bool
    requires { n < 65 }
    ensures { result ≡ renumbers n numbers.now }
{
    if numbers.len() != n {
        return false;
    }
    let mut seen: u64 = 0;
    for x in numbers {
        seen = sets::with(seen, *x as usize);
    }
    let all = sets::mask(n);
    all ^ (all & seen) == 0
}

// Puts the first n words once more behind them, with more in each.
fn double(part: &mut [u64], n: usize, more: u64)
    requires { (length part.old ≡ 256) × (n < 129) }
    ensures { Doubled part.old n more part.new n }
{
    for v in 0..n {
        part[n + v] = part[v] | more;
    }
}

// The new numbers of the eight members from b on, by those of them that are in a byte: each member doubles the words.
fn fill_byte(all: &[u8], b: usize, part: &mut [u64])
    requires { (length part.old ≡ 256) × (b < 57) × (length all.now ≡ block_words) }
    ensures { (length part.new ≡ 256) × ByteOf (new_number all.now) b part.new 256 }
{
    part[0] = 0;
    let mut n: usize = 1;
    for k in 0..8 {
        let more = sets::single(number_of(all, b + k));
        double(part, n, more);
        n = 2 * n;
    }
}

// The same for all 64 members.
fn fill_bytes(all: &[u8], bytes: &mut [u64])
    requires { (length bytes.old ≡ 2048) × (length all.now ≡ block_words) }
    ensures { Bytes (new_number all.now) bytes.new }
{
    for i in 0..8 {
        let k = 256 * i;
        fill_byte(all, 8 * i, &mut bytes[k..k + 256]);
    }
}

// The new numbers of those of the 16 members from 16 i on that are in a set, whose bit 0 is the first of them.
pub(crate) fn spread_part(bytes: &[u64], i: usize, set: u64) -> u64
    requires { (length bytes.now ≡ 2048) × (i < 4) }
    ensures { (p : ℕ → ℕ) → Bytes p bytes.now → (m : ℕ) → bit result m ≡ spread 16 (λ k. p (16 * i + k)) set m }
{
    let k = 512 * i;
    bytes[k + (set & 255) as usize] | bytes[k + 256 + (set / 256 & 255) as usize]
}

// The new numbers of the members of a set.
fn spread(bytes: &[u64], set: u64) -> u64
    requires { length bytes.now ≡ 2048 }
    ensures { (p : ℕ → ℕ) → Bytes p bytes.now → (m : ℕ) → bit result m ≡ spread 64 p set m }
{
    let a = spread_part(bytes, 0, set);
    let b = spread_part(bytes, 1, set / 65536);
    let c = spread_part(bytes, 2, set / 65536 / 65536);
    let d = spread_part(bytes, 3, set / 65536 / 65536 / 65536);
    a | b | c | d
}

// The word of an event edge, with its members renumbered.
fn new_event(numbers: &[u8], word: u64) -> u64
    requires { word < 131073 }
    ensures { result ≡ new_event (new_number numbers.now) word }
{
    if word == 0 {
        return 0;
    }
    let n = (word - 1) as usize;
    let from = new_number(numbers, n / FROM_UNIT % FROM_UNIT);
    let to = new_number(numbers, n % FROM_UNIT);
    (1 + n / EVENT_UNIT * EVENT_UNIT + from * FROM_UNIT + to) as u64
}

// Sets the words of a block to 0.
pub(crate) fn clear(words: &mut [u64])
    requires { length words.old ≡ block_words }
    ensures { (length words.new ≡ block_words) × ((i : ℕ) → get_or words.new i 0 ≡ 0) }
{
    words.fill(0);
}

// Puts each row of a block at its new number, with its bits at theirs. Most rows of a sparse state are 0.
fn move_rows(from: &[u64], all: &[u8], bytes: &[u64], into: &mut [u64])
    requires from_len { (length from.now ≡ block_words) × (length into.old ≡ block_words) × (length all.now ≡ block_words) }
    requires bytes { Bytes (new_number all.now) bytes.now × Apart (new_number all.now) }
    ensures { Placed (new_number all.now) from.now into.new block_words }
{
    clear(into);
    for a in 0..layout::BLOCK {
        let k = number_of(all, a);
        let w = from[a];
        if w != 0 {
            let moved = spread(bytes, w);
            into[k] = moved;
        }
    }
}

// Moves every block: those in the set as tables with two columns, the others row by row.
fn move_blocks(two: u64, state: &[u64], all: &[u8], bytes: &[u64], second: &mut [u64])
    requires state_words_in_bounds { (state_words ≤ length state.now) × (state_words ≤ length second.old) × (length all.now ≡ block_words) }
    requires bytes { Bytes (new_number all.now) bytes.now × Apart (new_number all.now) × ((b : ℕ) → bit two b ≡ true → Few (new_number all.now)) }
    ensures { Moved two (new_number all.now) state.now second.old second.new 48 }
{
    for b in 0..BLOCKS {
        let k = layout::BLOCK * b;
        let from = &state[k..k + layout::BLOCK];
        let into = &mut second[k..k + layout::BLOCK];
        if sets::has(two, b) {
            pairs::move_table(from, all, bytes, into);
        } else {
            move_rows(from, all, bytes, into);
        }
    }
}

// Writes the renumbered state.
fn rewrite(terms: &[u16], index: &[u16], state: &[u64], numbers: &[u8], second: &mut [u64])
    requires terms_value { (good_memory terms.now ≡ true) × Indexed (terms_of terms.now) index.now }
    requires state_words_in_bounds { (state_words ≤ length state.now) × (state_words ≤ length second.old) × (get_or state.now event_at 0 < 131073) }
    requires numbers_len_bound { (length numbers.now ≤ block_words) × Apart (new_number numbers.now) × ((terms_of terms.now).members < 17 → Few (new_number numbers.now)) }
    ensures { Rewritten (terms_of terms.now) (new_number numbers.now) state.now second.old second.new }
{
    let mut all = [0u8; layout::BLOCK];
    fill_numbers(numbers, &mut all);
    let mut bytes = [0u64; 2048];
    fill_bytes(&all, &mut bytes);
    let two = pairs::two_columns(terms, index);
    move_blocks(two, state, &all, &bytes, second);
    second[layout::EVENT_AT] = new_event(numbers, state[layout::EVENT_AT]);
}

// Rewrites a state into a second one, byte m of the list being the new number of member m. A refusal
// leaves the second state as lent.
pub fn renumber(
    terms: &[u16],
    state: &[u64],
    numbers: &[u8],
    second: &mut [u64],
) -> Result<(), Refusal>
    ensures result_value { outcome_of result ≡ renumbering terms.now state.now numbers.now second.old }
    ensures second_after { second.new ≡ renumbered_state terms.now state.now numbers.now second.old }
{
    if second.len() < layout::STATE {
        return Err(Refusal::Short);
    }
    let mut index = [0u16; ENTRIES];
    memory::inspect(terms, state, &mut index)?;
    if !are_new_numbers(numbers, layout::members(terms)) {
        return Err(Refusal::Numbers);
    }
    rewrite(terms, &index, state, numbers, second);
    Ok(())
}
