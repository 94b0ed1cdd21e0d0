// What C links: each function that hosts call, by its own name and with its own contract. `cuckooormolu` says what each
// does, and does it; a crate that others stand on makes no archive.
#![tactic(auto)]

ghost use Rattle.std.specs.Prelude.{◌≡◌};
ghost use Rattle.calls.specs.Monitor.{opened_state, answer, state_after, scratch_after};
ghost use Rattle.calls.specs.Revising.{revised_state};
ghost use Rattle.calls.specs.Renumbering.{renumbering, renumbered_state};
ghost use Rattle.calls.specs.SetList.{listed, left};
ghost use Rattle.memory.specs.Outcome.{checks, opens, revises};
ghost use Rattle.effort.specs.Effort.{effort};
ghost use Rattle.reader.specs.Read.{read_gives, read_terms};
ghost use Rattle.text.specs.Text.{read_state};
ghost use Rattle.writer.specs.Write.{old_size_gives, old_write_gives, old_write_leaves, store_size_gives, store_gives, store_leaves};
ghost use Rattle.cuckooormolu.specs.Codes.{code_of, outcome_code, outcome_line, writing_code, writing_count, listing_code, listing_count};
ghost use Rattle.cuckooormolu.specs.Version.{version};

use calls::Record;

mod banks;
mod plan;

#[unsafe(no_mangle)]
pub extern "C" fn cuckooormolu_raw_version_0_15_0() -> usize
    ensures { result ≡ version }
{
    cuckooormolu::cuckooormolu_raw_version_0_15_0()
}

#[unsafe(no_mangle)]
pub extern "C" fn cuckooormolu_raw_read(
    text: &[u8],
    terms: &mut [u16],
    state: &mut [u64],
    line: &mut usize,
) -> usize
    ensures value { result ≡ outcome_code (read_gives text.now terms.old state.old) }
    ensures line_after { line.new ≡ outcome_line (read_gives text.now terms.old state.old) }
    ensures terms_after { terms.new ≡ read_terms text.now terms.old state.old }
    ensures state_after { state.new ≡ read_state text.now terms.old state.old }
{
    cuckooormolu::cuckooormolu_raw_read(text, terms, state, line)
}

#[unsafe(no_mangle)]
pub extern "C" fn cuckooormolu_raw_size(terms: &[u16], state: &[u64], count: &mut usize) -> usize
    ensures value { result ≡ writing_code (old_size_gives terms.now state.now) }
    ensures count_after { count.new ≡ writing_count (old_size_gives terms.now state.now) }
{
    cuckooormolu::cuckooormolu_raw_size(terms, state, count)
}

#[unsafe(no_mangle)]
pub extern "C" fn cuckooormolu_raw_write(
    terms: &[u16],
    state: &[u64],
    out: &mut [u8],
    count: &mut usize,
) -> usize
    ensures value { result ≡ writing_code (old_write_gives terms.now state.now out.old) }
    ensures count_after { count.new ≡ writing_count (old_write_gives terms.now state.now out.old) }
    ensures out_after { out.new ≡ old_write_leaves terms.now state.now out.old }
{
    cuckooormolu::cuckooormolu_raw_write(terms, state, out, count)
}

#[unsafe(no_mangle)]
pub extern "C" fn cuckooormolu_raw_store_size(
    terms: &[u16],
    state: &[u64],
    count: &mut usize,
) -> usize
    ensures value { result ≡ writing_code (store_size_gives terms.now state.now) }
    ensures count_after { count.new ≡ writing_count (store_size_gives terms.now state.now) }
{
    cuckooormolu::cuckooormolu_raw_store_size(terms, state, count)
}

#[unsafe(no_mangle)]
pub extern "C" fn cuckooormolu_raw_store(
    terms: &[u16],
    state: &[u64],
    out: &mut [u8],
    count: &mut usize,
) -> usize
    ensures value { result ≡ writing_code (store_gives terms.now state.now out.old) }
    ensures count_after { count.new ≡ writing_count (store_gives terms.now state.now out.old) }
    ensures out_after { out.new ≡ store_leaves terms.now state.now out.old }
{
    cuckooormolu::cuckooormolu_raw_store(terms, state, out, count)
}

#[unsafe(no_mangle)]
pub extern "C" fn cuckooormolu_raw_check(terms: &[u16], state: &[u64]) -> usize
    ensures { result ≡ outcome_code (checks terms.now state.now) }
{
    cuckooormolu::cuckooormolu_raw_check(terms, state)
}

#[unsafe(no_mangle)]
pub extern "C" fn cuckooormolu_raw_open(terms: &[u16], state: &mut [u64]) -> usize
    ensures value { result ≡ outcome_code (opens terms.now state.old) }
    ensures state_after { state.new ≡ opened_state terms.now state.old }
{
    cuckooormolu::cuckooormolu_raw_open(terms, state)
}

#[unsafe(no_mangle)]
pub extern "C" fn cuckooormolu_raw_revise(
    old: &[u16],
    state: &[u64],
    new: &[u16],
    second: &mut [u64],
) -> usize
    ensures value { result ≡ outcome_code (revises old.now state.now new.now second.old) }
    ensures second_after { second.new ≡ revised_state old.now state.now new.now second.old }
{
    cuckooormolu::cuckooormolu_raw_revise(old, state, new, second)
}

#[unsafe(no_mangle)]
pub extern "C" fn cuckooormolu_raw_renumber(
    terms: &[u16],
    state: &[u64],
    numbers: &[u8],
    second: &mut [u64],
) -> usize
    ensures value { result ≡ outcome_code (renumbering terms.now state.now numbers.now second.old) }
    ensures second_after { second.new ≡ renumbered_state terms.now state.now numbers.now second.old }
{
    cuckooormolu::cuckooormolu_raw_renumber(terms, state, numbers, second)
}

#[unsafe(no_mangle)]
pub extern "C" fn cuckooormolu_raw_effort(terms: &[u16]) -> usize
    ensures { result ≡ effort terms.now }
{
    cuckooormolu::cuckooormolu_raw_effort(terms)
}

#[unsafe(no_mangle)]
pub extern "C" fn cuckooormolu_raw_look(
    terms: &[u16],
    state: &[u64],
    scratch: &[u64],
    event: usize,
    from: usize,
    to: usize,
) -> usize
    ensures { result ≡ code_of (answer terms.now state.now scratch.now event from to) }
{
    cuckooormolu::cuckooormolu_raw_look(terms, state, scratch, event, from, to)
}

#[unsafe(no_mangle)]
pub extern "C" fn cuckooormolu_raw_request(
    terms: &[u16],
    state: &mut [u64],
    scratch: &mut [u64],
    event: usize,
    from: usize,
    to: usize,
) -> usize
    ensures value { result ≡ code_of (answer terms.now state.old scratch.old event from to) }
    ensures state_after { state.new ≡ state_after terms.now state.old scratch.old event from to }
    ensures scratch_after { scratch.new ≡ scratch_after terms.now state.old scratch.old event from to }
{
    cuckooormolu::cuckooormolu_raw_request(terms, state, scratch, event, from, to)
}

#[unsafe(no_mangle)]
pub extern "C" fn cuckooormolu_raw_set_list(
    terms: &[u16],
    state: &mut [u64],
    scratch: &mut [u64],
    records: &mut [Record],
    count: &mut usize,
) -> usize
    ensures value { result ≡ listing_code (listed terms.now state.old scratch.old records.old) }
    ensures count_after { count.new ≡ listing_count (listed terms.now state.old scratch.old records.old) }
    ensures records_after { records.new ≡ (left terms.now state.old scratch.old records.old).records }
    ensures state_after { state.new ≡ (left terms.now state.old scratch.old records.old).state }
    ensures scratch_after { scratch.new ≡ (left terms.now state.old scratch.old records.old).scratch }
{
    cuckooormolu::cuckooormolu_raw_set_list(terms, state, scratch, records, count)
}
