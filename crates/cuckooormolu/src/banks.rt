// What a host links for two banks. The bank that is called comes first, and the other beside it.
ghost use Rattle.std.specs.Prelude.{◌≡◌};
ghost use Rattle.memory.specs.Outcome.{banks_open, banks_revise};
ghost use Rattle.banking.specs.Banking.{bank_answer, relations_after, own_after, other_after, cleared_after, own_opened, relations_revised, own_revised};
ghost use Rattle.banking.specs.BankList.{bank_listed, bank_left};
ghost use Rattle.text.specs.Banks.{banks_read_gives, banks_read_terms, banks_read_relations, banks_read_own};
ghost use Rattle.cuckooormolu.specs.Codes.{code_of, outcome_code, outcome_line, listing_code, listing_count};

use crate::{answer_code, outcome_code, outcome_line, tell_count};
use calls::Record;

// Reads a terms file of the old form into two banks: DONE, or the number of the refusal, with its line; the
// line is 0 where there is none.
#[unsafe(no_mangle)]
pub extern "C" fn cuckooormolu_raw_banks_read(
    text: &[u8],
    terms: &mut [u16],
    relations: &mut [u64],
    own: &mut [u64],
    other: &mut [u64],
    line: &mut usize,
) -> usize
    ensures value { result ≡ outcome_code (banks_read_gives text.now terms.old relations.old own.old other.old) }
    ensures line_after { line.new ≡ outcome_line (banks_read_gives text.now terms.old relations.old own.old other.old) }
    ensures terms_after { terms.new ≡ banks_read_terms text.now terms.old relations.old own.old other.old }
    ensures relations_after { relations.new ≡ banks_read_relations text.now terms.old relations.old own.old other.old }
    ensures own_after { own.new ≡ banks_read_own text.now terms.old relations.old own.old other.old own.old }
    ensures other_after { other.new ≡ banks_read_own text.now terms.old relations.old own.old other.old other.old }
{
    let o = text::banks::read(text, terms, relations, own, other);
    *line = outcome_line(o);
    outcome_code(o)
}

// Makes moment 0 of the relations for both banks: DONE, 6, 7 or 8.
#[unsafe(no_mangle)]
pub extern "C" fn cuckooormolu_raw_banks_open(
    terms: &[u16],
    relations: &[u64],
    own: &mut [u64],
    other: &mut [u64],
) -> usize
    ensures value { result ≡ outcome_code (banks_open terms.now relations.now own.old other.old) }
    ensures own_after { own.new ≡ own_opened terms.now relations.now own.old other.old own.old }
    ensures other_after { other.new ≡ own_opened terms.now relations.now own.old other.old other.old }
{
    outcome_code(monitor::banks::open(terms, relations, own, other))
}

// What a request of the bank would answer now: GRANTED, DENIED, 6, 7, 8 or 9.
#[unsafe(no_mangle)]
pub extern "C" fn cuckooormolu_raw_banks_look(
    terms: &[u16],
    relations: &[u64],
    own: &[u64],
    other: &[u64],
    scratch: &[u64],
    spare: &[u64],
    event: usize,
    from: usize,
    to: usize,
) -> usize
    ensures { result ≡ code_of (bank_answer terms.now relations.now own.now other.now scratch.now spare.now event from to) }
{
    answer_code(monitor::banks::look(
        terms, relations, own, other, scratch, spare, event, from, to,
    ))
}

// Answers a request of the bank and, where it is granted, or denied and its event is kept, makes the next moment of
// both banks: GRANTED, DENIED, 6, 7, 8 or 9.
#[unsafe(no_mangle)]
pub extern "C" fn cuckooormolu_raw_banks_request(
    terms: &[u16],
    relations: &mut [u64],
    own: &mut [u64],
    other: &mut [u64],
    scratch: &mut [u64],
    spare: &mut [u64],
    event: usize,
    from: usize,
    to: usize,
) -> usize
    ensures value { result ≡ code_of (bank_answer terms.now relations.old own.old other.old scratch.old spare.old event from to) }
    ensures relations_after { relations.new ≡ relations_after terms.now relations.old own.old other.old scratch.old spare.old event from to }
    ensures own_after { own.new ≡ own_after terms.now relations.old own.old other.old scratch.old spare.old event from to }
    ensures other_after { other.new ≡ other_after terms.now relations.old own.old other.old scratch.old spare.old event from to }
    ensures scratch_after { scratch.new ≡ cleared_after terms.now relations.old own.old other.old scratch.old spare.old event from to scratch.old }
    ensures spare_after { spare.new ≡ cleared_after terms.now relations.old own.old other.old scratch.old spare.old event from to spare.old }
{
    answer_code(monitor::banks::request(
        terms, relations, own, other, scratch, spare, event, from, to,
    ))
}

// Answers the records of a set list of the bank in order, each as a request of it: DONE with the count of
// grants, or 6, 7 or 8 with count 0.
#[unsafe(no_mangle)]
pub extern "C" fn cuckooormolu_raw_banks_set_list(
    terms: &[u16],
    relations: &mut [u64],
    own: &mut [u64],
    other: &mut [u64],
    scratch: &mut [u64],
    spare: &mut [u64],
    records: &mut [Record],
    count: &mut usize,
) -> usize
    ensures value { result ≡ listing_code (bank_listed terms.now relations.old own.old other.old scratch.old spare.old records.old) }
    ensures count_after { count.new ≡ listing_count (bank_listed terms.now relations.old own.old other.old scratch.old spare.old records.old) }
    ensures records_after { records.new ≡ (bank_left terms.now relations.old own.old other.old scratch.old spare.old records.old).records }
    ensures relations_after { relations.new ≡ (bank_left terms.now relations.old own.old other.old scratch.old spare.old records.old).relations }
    ensures own_after { own.new ≡ (bank_left terms.now relations.old own.old other.old scratch.old spare.old records.old).own }
    ensures other_after { other.new ≡ (bank_left terms.now relations.old own.old other.old scratch.old spare.old records.old).other }
    ensures scratch_after { scratch.new ≡ (bank_left terms.now relations.old own.old other.old scratch.old spare.old records.old).scratch }
    ensures spare_after { spare.new ≡ (bank_left terms.now relations.old own.old other.old scratch.old spare.old records.old).spare }
{
    let l = monitor::bank_list::set_list(terms, relations, own, other, scratch, spare, records);
    tell_count(l, count)
}

// Gives both banks new terms together, into second relations and second own words: DONE, or the number of the refusal.
#[unsafe(no_mangle)]
pub extern "C" fn cuckooormolu_raw_banks_revise(
    old: &[u16],
    relations: &[u64],
    own: &[u64],
    other: &[u64],
    new: &[u16],
    edges: &mut [u64],
    third: &mut [u64],
    fourth: &mut [u64],
) -> usize
    ensures value { result ≡ outcome_code (banks_revise old.now relations.now own.now other.now new.now edges.old third.old fourth.old) }
    ensures edges_after { edges.new ≡ relations_revised old.now relations.now own.now other.now new.now edges.old third.old fourth.old }
    ensures third_after { third.new ≡ own_revised old.now relations.now own.now other.now new.now edges.old third.old fourth.old own.now third.old }
    ensures fourth_after { fourth.new ≡ own_revised old.now relations.now own.now other.now new.now edges.old third.old fourth.old other.now fourth.old }
{
    outcome_code(monitor::banks::revise(old, relations, own, other, new, edges, third, fourth))
}
