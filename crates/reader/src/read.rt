// The reader of a terms file: one pass over the lines, into words of its own, which an accepted
// text leaves in the lent memory.
ghost use Rattle.std.specs.Prelude.{◌≡◌, length, replicate};
ghost use Rattle.memory.specs.Layout.{terms_words, state_words};
ghost use Rattle.reader.specs.Read.{filling_of, fill_gives, read_terms, read_words};
ghost use Rattle.reader.specs.OldForm.{begins_stored, old_fill_gives, old_terms, old_relations};
ghost use Rattle.reader.specs.private.Storing.{Reads};

use crate::Form;
use crate::free::{free_in, reach_in};
use crate::refusal::fault_of;
use crate::refusal_11::partly_at;
use crate::step::{begin, is_complete, step};
use crate::store::{store_set, store_state, store_terms};
use fields::lines::Lines;
use file::line::{Line, parse_line};
use memory::layout::{STATE, TABLES_AT, TERMS};
use memory::limits::ENTRIES;
use memory::refusal::{Fault, Refusal};

// Reads the lines into words that are 0: the terms, the state, and the sets of free variables on the way.
// A refusal has the first faulty line and in it the lowest number; what the words are then is not said.
fn read_lines(
    text: &[u8],
    terms: &mut [u16],
    state: &mut [u64],
    masks: &mut [u64],
) -> Result<Form, Refusal>
    requires { (terms.old ≡ replicate terms_words 0) × (state.old ≡ replicate state_words 0) × (length masks.old ≡ 256) }
    ensures { Reads text.now (filling_of result) terms.new state.new masks.new }
{
    let mut c = begin();
    let mut n = 1;
    let mut m = 0;
    for bytes in Lines::of(text) {
        let Some(bytes) = bytes else {
            return Err(Refusal::Line(Fault::Form, n));
        };
        let line = parse_line(bytes);
        m = free_in(c.phase, c.relation, m, terms, masks, line);
        let reaches = reach_in(masks, line);
        if let Err(fault) = fault_of(c, line, m, reaches) {
            return Err(Refusal::Line(fault, n));
        }
        store_terms(terms, c, line);
        store_state(state, c, line);
        store_set(masks, c, line, m);
        c = step(c, line);
        n += 1;
    }
    if !is_complete(c) {
        return Err(Refusal::Line(Fault::Form, n));
    }
    Ok(if c.stored { Form::Stored } else { Form::Old })
}

// Reads a terms file. An accepted text fills the named words of terms and of state with what it says, an old one
// without tables and event; a refusal has its number and line and leaves all memory as lent.
pub fn fill(text: &[u8], terms: &mut [u16], state: &mut [u64]) -> Result<Form, Refusal>
    ensures result_value { filling_of result ≡ fill_gives text.now terms.old state.old }
    ensures terms_after { terms.new ≡ read_terms text.now terms.old state.old }
    ensures state_after { state.new ≡ read_words text.now terms.old state.old }
{
    if terms.len() < TERMS || state.len() < STATE {
        return Err(Refusal::Short);
    }
    let mut words = [0u16; TERMS];
    let mut bits = [0u64; STATE];
    let mut masks = [0u64; ENTRIES];
    let form = read_lines(text, &mut words, &mut bits, &mut masks)?;
    if let Some(line) = partly_at(text, &words, &bits, &masks) {
        return Err(Refusal::Line(Fault::Table, line));
    }
    terms[..TERMS].copy_from_slice(&words);
    state[..STATE].copy_from_slice(&bits);
    Ok(form)
}

// Whether the first line is an S line, with which the stored form begins.
fn begins_stored(text: &[u8]) -> bool
    ensures { result ≡ begins_stored text.now }
{
    let Some(first) = Lines::of(text).next().flatten() else {
        return false;
    };
    matches!(parse_line(first), Line::Form(_))
}

// Reads a terms file of the old form, as `fill` does, and of the state only the relations; a stored text
// is refused where its S stands.
pub fn fill_relations(
    text: &[u8],
    terms: &mut [u16],
    relations: &mut [u64],
) -> Result<Form, Refusal>
    ensures result_value { filling_of result ≡ old_fill_gives text.now terms.old relations.old }
    ensures terms_after { terms.new ≡ old_terms text.now terms.old relations.old }
    ensures relations_after { relations.new ≡ old_relations text.now terms.old relations.old }
{
    if terms.len() < TERMS || relations.len() < TABLES_AT {
        return Err(Refusal::Short);
    }
    if begins_stored(text) {
        return Err(Refusal::Line(Fault::Form, 1));
    }
    let mut state = [0u64; STATE];
    let form = fill(text, terms, &mut state)?;
    relations[..TABLES_AT].copy_from_slice(&state[..TABLES_AT]);
    Ok(form)
}
