// A set list: a lent list of request records, answered in order. Terms, state and scratch are
// checked once, before any record.
ghost use Rattle.std.specs.Prelude.{◌≡◌};
ghost use Rattle.calls.specs.Monitor.{answer, state_after, scratch_after};
ghost use Rattle.calls.specs.SetList.{listing_of, answer_number, listed, left};
ghost use Rattle.calls.specs.private.Listing.{MemoryPassed};

use crate::lists::{number_of, tally};
use crate::passed;
use calls::Record;
use memory::limits::ENTRIES;
use memory::refusal::Refusal;

// Answers the request of a record by its number, over memory that has passed the checks.
fn step(terms: &[u16], index: &[u16], state: &mut [u64], scratch: &mut [u64], r: Record) -> u32
    requires { MemoryPassed terms.now index.now state.old scratch.old }
    ensures { (result ≡ answer_number (answer terms.now state.old scratch.old r.event r.from r.to))
        × (state.new ≡ state_after terms.now state.old scratch.old r.event r.from r.to)
        × (scratch.new ≡ scratch_after terms.now state.old scratch.old r.event r.from r.to) }
{
    let event = r.event as usize;
    let from = r.from as usize;
    let to = r.to as usize;
    let a = passed::request(terms, index, state, scratch, event, from, to);
    number_of(a)
}

// Answers the records in order, each as a single request would be. Where a check of terms, state or
// scratch fails, nothing is written.
pub fn set_list(
    terms: &[u16],
    state: &mut [u64],
    scratch: &mut [u64],
    records: &mut [Record],
) -> Result<usize, Refusal>
    ensures { (listing_of result ≡ listed terms.now state.old scratch.old records.old)
        × (records.new ≡ (left terms.now state.old scratch.old records.old).records)
        × (state.new ≡ (left terms.now state.old scratch.old records.old).state)
        × (scratch.new ≡ (left terms.now state.old scratch.old records.old).scratch) }
{
    let mut index = [0u16; ENTRIES];
    passed::inspect_call(terms, state, scratch, &mut index)?;
    let mut granted = 0;
    for r in records.iter_mut() {
        let answer = step(terms, &index, state, scratch, *r);
        r.answer = answer;
        granted = tally(granted, answer);
    }
    Ok(granted)
}
