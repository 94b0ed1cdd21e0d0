// The checks of two banks, which share relations: as those of one state, with the own words of both.
ghost use Rattle.std.specs.Prelude.{◌≡◌, true, false, ◌||◌, ◌≤◌, ltb, length};
ghost use Rattle.memory.specs.Layout.{terms_words, relation_words, own_words, terms_of};
ghost use Rattle.memory.specs.Checks.{good_memory};
ghost use Rattle.memory.specs.TableIndex.{Indexed, Masked};
ghost use Rattle.memory.specs.Outcome.{outcome_of, has_passed, short_banks, good_banks, banks_check, banks_open, banks_revise};

use crate::limits::ENTRIES;
use crate::refusal::Refusal;
use crate::{check_state, check_terms, is_same_size, layout};

// Whether terms, relations or one of the banks' own words are too few.
fn is_short(terms: &[u16], relations: &[u64], own: &[u64], other: &[u64]) -> bool
    ensures { result ≡ (ltb (length terms.now) terms_words || short_banks relations.now own.now other.now) }
{
    (terms.len() < layout::TERMS)
        | ((relations.len() < layout::TABLES_AT)
            | ((own.len() < layout::OWN) | (other.len() < layout::OWN)))
}

// Whether both banks' states keep the layout.
fn check_banks(
    terms: &[u16],
    masks: &[u64],
    index: &[u16],
    relations: &[u64],
    own: &[u64],
    other: &[u64],
) -> bool
    requires terms_value { (good_memory terms.now ≡ true) × (relation_words ≤ length relations.now) × (own_words ≤ length own.now) × (own_words ≤ length other.now) }
    requires indexed { Indexed (terms_of terms.now) index.now × Masked (terms_of terms.now) masks.now }
    ensures { result ≡ good_banks (terms_of terms.now) relations.now own.now other.now }
{
    check_state::check_relations(terms, relations)
        & (check_state::check_own(terms, masks, index, own)
            & check_state::check_own(terms, masks, index, other))
}

// Checks terms and both banks, and leaves the table index where they pass. Else the lent index is as it was.
pub fn inspect(
    terms: &[u16],
    relations: &[u64],
    own: &[u64],
    other: &[u64],
    index: &mut [u16; ENTRIES],
) -> Result<(), Refusal>
    ensures result_value { outcome_of result ≡ banks_check terms.now relations.now own.now other.now }
    ensures indexed { has_passed (outcome_of result) ≡ true → Indexed (terms_of terms.now) index.new }
    ensures index_unchanged { has_passed (outcome_of result) ≡ false → index.new ≡ index.old }
{
    if is_short(terms, relations, own, other) {
        return Err(Refusal::Short);
    }
    let mut masks = [0u64; ENTRIES];
    let mut made = [0u16; ENTRIES];
    if !check_terms::check_terms(terms, &mut masks, &mut made) {
        return Err(Refusal::Terms);
    }
    if !check_banks(terms, &masks, &made, relations, own, other) {
        return Err(Refusal::State);
    }
    *index = made;
    Ok(())
}

// Checks terms and the relations of banks that are to be opened, and leaves the table index where they pass. Else the
// lent index is as it was.
pub fn inspect_opening(
    terms: &[u16],
    relations: &[u64],
    own: &[u64],
    other: &[u64],
    index: &mut [u16; ENTRIES],
) -> Result<(), Refusal>
    ensures result_value { outcome_of result ≡ banks_open terms.now relations.now own.now other.now }
    ensures indexed { has_passed (outcome_of result) ≡ true → Indexed (terms_of terms.now) index.new }
    ensures index_unchanged { has_passed (outcome_of result) ≡ false → index.new ≡ index.old }
{
    if is_short(terms, relations, own, other) {
        return Err(Refusal::Short);
    }
    let mut masks = [0u64; ENTRIES];
    let mut made = [0u16; ENTRIES];
    if !check_terms::check_terms(terms, &mut masks, &mut made) {
        return Err(Refusal::Terms);
    }
    if !check_state::check_relations(terms, relations) {
        return Err(Refusal::State);
    }
    *index = made;
    Ok(())
}

// Checks old terms, both banks under them and new terms that come in their place, and leaves the indexes of both where
// they pass. Else the lent indexes are as they were. Of the second memory only the lengths are looked at.
pub fn inspect_revision(
    old: &[u16],
    relations: &[u64],
    own: &[u64],
    other: &[u64],
    new: &[u16],
    edges: &[u64],
    third: &[u64],
    fourth: &[u64],
    before: &mut [u16; ENTRIES],
    after: &mut [u16; ENTRIES],
) -> Result<(), Refusal>
    ensures result_value { outcome_of result ≡ banks_revise old.now relations.now own.now other.now new.now edges.now third.now fourth.now }
    ensures indexed { has_passed (outcome_of result) ≡ true → Indexed (terms_of old.now) before.new }
    ensures indexed_2 { has_passed (outcome_of result) ≡ true → Indexed (terms_of new.now) after.new }
    ensures before_unchanged { has_passed (outcome_of result) ≡ false → (before.new ≡ before.old) × (after.new ≡ after.old) }
{
    if is_short(old, relations, own, other) {
        return Err(Refusal::Short);
    }
    if is_short(new, edges, third, fourth) {
        return Err(Refusal::Short);
    }
    let mut masks = [0u64; ENTRIES];
    let mut old_index = [0u16; ENTRIES];
    let mut new_index = [0u16; ENTRIES];
    if !check_terms::check_terms(new, &mut masks, &mut new_index) {
        return Err(Refusal::Terms);
    }
    if !check_terms::check_terms(old, &mut masks, &mut old_index) {
        return Err(Refusal::Terms);
    }
    if !check_banks(old, &masks, &old_index, relations, own, other) {
        return Err(Refusal::State);
    }
    if !is_same_size(old, new) {
        return Err(Refusal::Size);
    }
    *before = old_index;
    *after = new_index;
    Ok(())
}
