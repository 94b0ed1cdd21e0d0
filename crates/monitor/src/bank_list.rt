// A set list of a bank: its records are requests of that bank, answered in order. The memory of both
// banks is checked before any record.
ghost use Rattle.std.specs.Prelude.{◌≡◌};
ghost use Rattle.memory.specs.Outcome.{outcome_of};
ghost use Rattle.calls.specs.SetList.{listing_of, answer_number};
ghost use Rattle.banking.specs.Banking.{bank_answer, relations_after, own_after, other_after, cleared_after};
ghost use Rattle.banking.specs.BankList.{bank_list_checks, bank_listed, bank_left};

use crate::banks::request;
use crate::lists::{number_of, tally};
use calls::Record;
use memory::layout;
use memory::limits::ENTRIES;
use memory::refusal::Refusal;

// The checks of a list.
fn inspect_bank_list(
    terms: &[u16],
    relations: &[u64],
    own: &[u64],
    other: &[u64],
    scratch: &[u64],
    spare: &[u64],
) -> Result<(), Refusal>
    ensures { outcome_of result ≡ bank_list_checks terms.now relations.now own.now other.now scratch.now spare.now }
{
    if (scratch.len() < layout::SCRATCH) | (spare.len() < layout::SCRATCH) {
        return Err(Refusal::Short);
    }
    let mut index = [0u16; ENTRIES];
    memory::banks::inspect(terms, relations, own, other, &mut index)
}

// Answers a record's request of the bank by its number.
fn step(
    terms: &[u16],
    relations: &mut [u64],
    own: &mut [u64],
    other: &mut [u64],
    scratch: &mut [u64],
    spare: &mut [u64],
    r: Record,
) -> u32
    ensures { (result ≡ answer_number (bank_answer terms.now relations.old own.old other.old scratch.old spare.old r.event r.from r.to))
        × (relations.new ≡ relations_after terms.now relations.old own.old other.old scratch.old spare.old r.event r.from r.to)
        × (own.new ≡ own_after terms.now relations.old own.old other.old scratch.old spare.old r.event r.from r.to)
        × (other.new ≡ other_after terms.now relations.old own.old other.old scratch.old spare.old r.event r.from r.to)
        × (scratch.new ≡ cleared_after terms.now relations.old own.old other.old scratch.old spare.old r.event r.from r.to scratch.old)
        × (spare.new ≡ cleared_after terms.now relations.old own.old other.old scratch.old spare.old r.event r.from r.to spare.old) }
{
    let event = r.event as usize;
    let from = r.from as usize;
    let to = r.to as usize;
    let a = request(
        terms, relations, own, other, scratch, spare, event, from, to,
    );
    number_of(a)
}

// Answers the records in order, each as a single request of the bank would be. Where a check of the
// memory fails, nothing is written.
pub fn set_list(
    terms: &[u16],
    relations: &mut [u64],
    own: &mut [u64],
    other: &mut [u64],
    scratch: &mut [u64],
    spare: &mut [u64],
    records: &mut [Record],
) -> Result<usize, Refusal>
    ensures { (listing_of result ≡ bank_listed terms.now relations.old own.old other.old scratch.old spare.old records.old)
        × (records.new ≡ (bank_left terms.now relations.old own.old other.old scratch.old spare.old records.old).records)
        × (relations.new ≡ (bank_left terms.now relations.old own.old other.old scratch.old spare.old records.old).relations)
        × (own.new ≡ (bank_left terms.now relations.old own.old other.old scratch.old spare.old records.old).own)
        × (other.new ≡ (bank_left terms.now relations.old own.old other.old scratch.old spare.old records.old).other)
        × (scratch.new ≡ (bank_left terms.now relations.old own.old other.old scratch.old spare.old records.old).scratch)
        × (spare.new ≡ (bank_left terms.now relations.old own.old other.old scratch.old spare.old records.old).spare) }
{
    inspect_bank_list(terms, relations, own, other, scratch, spare)?;
    let mut granted = 0;
    for r in records.iter_mut() {
        let answer = step(terms, relations, own, other, scratch, spare, *r);
        r.answer = answer;
        granted = tally(granted, answer);
    }
    Ok(granted)
}
