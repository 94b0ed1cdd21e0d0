// The writer of the stored form: the text of the lent terms and the whole state (docs/SCOPE.md, The stored form).
// Whatever the words are, the text has at most 2 ^ 25 bytes, so that no count wraps.
ghost use Rattle.std.specs.Prelude.{◌≡◌, ◌+◌, ◌*◌, ◌^◌, ◌<◌, ◌≤◌, length, get_or};
ghost use Rattle.theory.specs.Limits.{max_events};
ghost use Rattle.memory.specs.Layout.{terms_of, state_words, event_at, event_unit, event_of};
ghost use Rattle.memory.specs.Outcome.{checks};
ghost use Rattle.memory.specs.Outcome.Outcome.{passed};
ghost use Rattle.fields.specs.private.Put.{Put};
ghost use Rattle.file.specs.Writing.{event_edge_line, printed_all};
ghost use Rattle.writer.specs.private.Kinds.{Paired};
ghost use Rattle.writer.specs.Write.{stored_text, writing_of, store_size_gives, store_gives, store_leaves};

use crate::bits::put_tables;
use crate::pairs::pair_tables;
use crate::print::{put_single, put_triple};
use crate::write::put_text;
use file::vocabulary::Kind;
use memory::limits::ENTRIES;
use memory::refusal::Refusal;
use memory::{inspect, layout};

// The number of the form, which its S line names.
const FORM: usize = 2;

// The units of the event word.
const EVENT_UNIT: usize = layout::EVENT_UNIT as usize;

const FROM_UNIT: usize = layout::FROM_UNIT as usize;

// Puts the V line of an event word, if there is an event edge. Line and word name a denied event alike.
fn put_event(out: &mut [u8], at: usize, w: u64) -> usize
    requires { (w ≤ 2 * max_events * event_unit) × (at < 2 ^ 58) }
    ensures put { Put out.old out.new at result (printed_all (event_edge_line (event_of w))) }
    ensures upper_bound { result ≤ at + 32 }
{
    if w == 0 {
        return at;
    }
    let n = (w - 1) as usize;
    put_triple(
        out,
        at,
        Kind::Event,
        n / EVENT_UNIT,
        n / FROM_UNIT % FROM_UNIT,
        n % FROM_UNIT,
    )
}

// Puts the whole text, where the tables with two columns are those of a set.
fn put_stored(terms: &[u16], state: &[u64], out: &mut [u8], at: usize, pairs: u64) -> usize
    requires { Paired (terms_of terms.now) pairs × (state_words ≤ length state.now) × (get_or state.now event_at 0 ≤ 2 * max_events * event_unit) × (at < 2 ^ 54) }
    ensures put { Put out.old out.new at result (stored_text terms.now state.now) }
    ensures upper_bound { result ≤ at + 2 ^ 25 }
{
    let text = put_single(out, at, Kind::Form, FORM);
    let tables = put_text(terms, state, out, text);
    let event = put_tables(state, out, tables, pairs);
    put_event(out, event, state[layout::EVENT_AT])
}

// The count of bytes of the text, found by putting it into one byte.
fn count(terms: &[u16], state: &[u64], pairs: u64) -> usize
    requires { Paired (terms_of terms.now) pairs × (state_words ≤ length state.now) × (get_or state.now event_at 0 ≤ 2 * max_events * event_unit) }
    ensures { result ≡ length (stored_text terms.now state.now) }
{
    let mut one = [0u8; 1];
    put_stored(terms, state, &mut one, 0, pairs)
}

// Writes the text of checked terms and state, if the output has room for all of it.
fn store_checked(terms: &[u16], state: &[u64], out: &mut [u8], pairs: u64) -> Result<usize, Refusal>
    requires { (passed ≡ checks terms.now state.now) × Paired (terms_of terms.now) pairs }
    ensures result_value { writing_of result ≡ store_gives terms.now state.now out.old }
    ensures out_after { out.new ≡ store_leaves terms.now state.now out.old }
{
    let n = count(terms, state, pairs);
    if out.len() < n {
        return Err(Refusal::Short);
    }
    put_stored(terms, state, out, 0, pairs);
    Ok(n)
}

// How many bytes `store` would write, or its refusal of terms and state: 6, 7 or 8.
pub fn store_size(terms: &[u16], state: &[u64]) -> Result<usize, Refusal>
    ensures { writing_of result ≡ store_size_gives terms.now state.now }
{
    let mut index = [0u16; ENTRIES];
    inspect(terms, state, &mut index)?;
    Ok(count(terms, state, pair_tables(terms, &index)))
}

// Writes the terms with the whole state. The count of bytes, or a refusal, which leaves the output untouched:
// 6, 7 and 8 for terms and state, and last 6 for an output too short for the whole text.
pub fn store(terms: &[u16], state: &[u64], out: &mut [u8]) -> Result<usize, Refusal>
    ensures result_value { writing_of result ≡ store_gives terms.now state.now out.old }
    ensures out_after { out.new ≡ store_leaves terms.now state.now out.old }
{
    let mut index = [0u16; ENTRIES];
    inspect(terms, state, &mut index)?;
    store_checked(terms, state, out, pair_tables(terms, &index))
}
