// Two banks over lent memory (docs/SCOPE.md, Two banks): opening, looking, requesting, revising the terms. The bank
// that is called comes first, and the other beside it.
ghost use Rattle.std.specs.Prelude.{◌≡◌, true, ◌++◌, ◌≤◌, length, take, drop};
ghost use Rattle.memory.specs.Layout.{relation_words, own_words, joined, terms_of};
ghost use Rattle.memory.specs.Outcome.{outcome_of, banks_open, banks_revise};
ghost use Rattle.memory.specs.TableIndex.{Indexed};
ghost use Rattle.calls.specs.Monitor.{answer_of, is_decided};
ghost use Rattle.banking.specs.Banking.{bank_answer, relations_after, own_after, other_after, cleared_after, own_opened, begun_words, relations_revised, own_revised};
ghost use Rattle.deciding.specs.private.Starting.{Revising, Taken};

use crate::passed::{is_grant, is_moving, is_named};
use crate::revise::{begin, copy};
use calls::{Answer, Verdict};
use memory::layout;
use memory::limits::ENTRIES;
use memory::refusal::Refusal;
use moments::beside;

const TABLES: usize = layout::TABLES_AT;

const OWN: usize = layout::OWN;

// The answer to a call of a bank. Where it is a verdict, index is the table index.
fn answer_call(
    terms: &[u16],
    relations: &[u64],
    own: &[u64],
    other: &[u64],
    scratch: &[u64],
    spare: &[u64],
    event: usize,
    from: usize,
    to: usize,
    index: &mut [u16; ENTRIES],
) -> Answer
    ensures result_value { answer_of result ≡ bank_answer terms.now relations.now own.now other.now scratch.now spare.now event from to }
    ensures indexed { is_decided (answer_of result) ≡ true → Indexed (terms_of terms.now) index.new }
{
    if scratch.len() < layout::SCRATCH {
        return Err(Refusal::Short).into();
    }
    if spare.len() < layout::SCRATCH {
        return Err(Refusal::Short).into();
    }
    match memory::banks::inspect(terms, relations, own, other, index) {
        Err(refusal) => Err(refusal).into(),
        Ok(()) => {
            if !is_named(terms, event, from, to) {
                return Err(Refusal::Name).into();
            }
            if beside::is_granted(terms, index, relations, own, event, from, to) {
                return Answer::Decided(Verdict::Grant);
            }
            Answer::Decided(Verdict::Deny)
        }
    }
}

// What a request of the bank would answer now. It makes no moment.
pub fn look(
    terms: &[u16],
    relations: &[u64],
    own: &[u64],
    other: &[u64],
    scratch: &[u64],
    spare: &[u64],
    event: usize,
    from: usize,
    to: usize,
) -> Answer
    ensures { answer_of result ≡ bank_answer terms.now relations.now own.now other.now scratch.now spare.now event from to }
{
    let mut index = [0u16; ENTRIES];
    answer_call(
        terms, relations, own, other, scratch, spare, event, from, to, &mut index,
    )
}

// Answers a request of the bank. One that makes a moment makes it in both banks, in the other without an event edge,
// and leaves the named words of both scratches 0. Anything else leaves all memory as lent.
pub fn request(
    terms: &[u16],
    relations: &mut [u64],
    own: &mut [u64],
    other: &mut [u64],
    scratch: &mut [u64],
    spare: &mut [u64],
    event: usize,
    from: usize,
    to: usize,
) -> Answer
    ensures result_value { answer_of result ≡ bank_answer terms.now relations.old own.old other.old scratch.old spare.old event from to }
    ensures relations_after { relations.new ≡ relations_after terms.now relations.old own.old other.old scratch.old spare.old event from to }
    ensures own_after { own.new ≡ own_after terms.now relations.old own.old other.old scratch.old spare.old event from to }
    ensures other_after { other.new ≡ other_after terms.now relations.old own.old other.old scratch.old spare.old event from to }
    ensures scratch_after { scratch.new ≡ cleared_after terms.now relations.old own.old other.old scratch.old spare.old event from to scratch.old }
    ensures spare_after { spare.new ≡ cleared_after terms.now relations.old own.old other.old scratch.old spare.old event from to spare.old }
{
    let mut index = [0u16; ENTRIES];
    let a = answer_call(
        terms, relations, own, other, scratch, spare, event, from, to, &mut index,
    );
    if is_moving(layout::is_kept(terms, event), a) {
        beside::next_moments(
            terms,
            &index,
            relations,
            own,
            other,
            scratch,
            spare,
            is_grant(a),
            event,
            from,
            to,
        );
        return a;
    }
    a
}

// Makes moment 0 of the relations for both banks; a refusal leaves their own words as lent.
pub fn open(
    terms: &[u16],
    relations: &[u64],
    first: &mut [u64],
    second: &mut [u64],
) -> Result<(), Refusal>
    ensures result_value { outcome_of result ≡ banks_open terms.now relations.now first.old second.old }
    ensures first_after { first.new ≡ own_opened terms.now relations.now first.old second.old first.old }
    ensures second_after { second.new ≡ own_opened terms.now relations.now first.old second.old second.old }
{
    let mut index = [0u16; ENTRIES];
    memory::banks::inspect_opening(terms, relations, first, second, &mut index)?;
    beside::first_moment(terms, &index, relations, first);
    copy(&mut second[0..OWN], first);
    Ok(())
}

// Fills in a bank's second own words, with which the new terms go on.
fn begin_own(
    old: &[u16],
    before: &[u16],
    relations: &[u64],
    own: &[u64],
    new: &[u16],
    index: &[u16],
    taken: &[u16],
    second: &mut [u64],
)
    requires revising { Revising old.now before.now (joined relations.now own.now) new.now index.now × Taken old.now new.now taken.now }
    requires relation_words_in_bounds { (relation_words ≤ length relations.now) × (own_words ≤ length own.now) × (own_words ≤ length second.old) }
    ensures second_after { second.new ≡ drop relation_words (begun_words old.now relations.now own.now new.now) ++ drop own_words second.old }
    ensures relations_value { take relation_words relations.now ≡ take relation_words (begun_words old.now relations.now own.now new.now) }
{
    begin(
        old,
        before,
        &relations[0..TABLES],
        &own[0..OWN],
        new,
        index,
        taken,
        &mut second[0..OWN],
    );
}

// Gives both banks new terms together: second relations and second own words are filled in.
// A refusal leaves them as lent.
pub fn revise(
    old: &[u16],
    relations: &[u64],
    first: &[u64],
    second: &[u64],
    new: &[u16],
    edges: &mut [u64],
    third: &mut [u64],
    fourth: &mut [u64],
) -> Result<(), Refusal>
    ensures result_value { outcome_of result ≡ banks_revise old.now relations.now first.now second.now new.now edges.old third.old fourth.old }
    ensures edges_after { edges.new ≡ relations_revised old.now relations.now first.now second.now new.now edges.old third.old fourth.old }
    ensures third_after { third.new ≡ own_revised old.now relations.now first.now second.now new.now edges.old third.old fourth.old first.now third.old }
    ensures fourth_after { fourth.new ≡ own_revised old.now relations.now first.now second.now new.now edges.old third.old fourth.old second.now fourth.old }
{
    let mut before = [0u16; ENTRIES];
    let mut after = [0u16; ENTRIES];
    memory::banks::inspect_revision(
        old,
        relations,
        first,
        second,
        new,
        edges,
        third,
        fourth,
        &mut before,
        &mut after,
    )?;
    let mut taken = [0u16; ENTRIES];
    classes::find_classes(old, new, &mut taken);
    copy(&mut edges[0..TABLES], relations);
    begin_own(old, &before, relations, first, new, &after, &taken, third);
    begin_own(old, &before, relations, second, new, &after, &taken, fourth);
    Ok(())
}
