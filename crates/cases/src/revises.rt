// Cases that read the head and revise it to the terms of a text. A text that is refused leaves memory of zeros,
// which a revision refuses by 7.
use crate::asks::{put_term, put_word};
use crate::columns::{call_at, label, number_at, term_at, word_at};
use crate::lent::{reading, requesting, revising};
use crate::show::{show_answer, show_outcome};
use fields::field::piece;
use memory::layout::{SCRATCH, STATE, TERMS};
use std::io;

// Reads the terms that field k of a case stands for. Its state is not used.
fn new_terms(l: &[u8], k: usize, terms: &mut [u16]) {
    let mut state = [0u64; STATE];
    reading(piece(l, 9, k), terms, TERMS, &mut state, STATE);
}

// `revises` old state new second text: with so many words of each.
fn revises(rt: &impl Print, l: &[u8], head: &[u8]) -> io::Result<()> {
    let mut old = [0u16; TERMS + 10];
    let mut state = [0u64; STATE + 10];
    let mut new = [0u16; TERMS + 10];
    let mut second = [0u64; STATE + 10];
    reading(head, &mut old, TERMS, &mut state, STATE);
    new_terms(l, 6, &mut new);
    let t = number_at(l, 2);
    let s = number_at(l, 3);
    let n = number_at(l, 4);
    let outcome = revising(&old, t, &state, s, &new, n, &mut second, number_at(l, 5));
    show_outcome(rt, label(l), outcome)
}

// `revises_damaged_old` word value text: after the value is put into the word of the old terms.
fn revises_damaged_old(rt: &impl Print, l: &[u8], head: &[u8]) -> io::Result<()> {
    let mut old = [0u16; TERMS];
    let mut state = [0u64; STATE];
    let mut new = [0u16; TERMS];
    let mut second = [0u64; STATE];
    reading(head, &mut old, TERMS, &mut state, STATE);
    put_term(&mut old, number_at(l, 2), term_at(l, 3));
    new_terms(l, 4, &mut new);
    let outcome = revising(&old, TERMS, &state, STATE, &new, TERMS, &mut second, STATE);
    show_outcome(rt, label(l), outcome)
}

// `revises_damaged_new` word value text: after the value is put into the word of the new terms.
fn revises_damaged_new(rt: &impl Print, l: &[u8], head: &[u8]) -> io::Result<()> {
    let mut old = [0u16; TERMS];
    let mut state = [0u64; STATE];
    let mut new = [0u16; TERMS];
    let mut second = [0u64; STATE];
    reading(head, &mut old, TERMS, &mut state, STATE);
    new_terms(l, 4, &mut new);
    put_term(&mut new, number_at(l, 2), term_at(l, 3));
    let outcome = revising(&old, TERMS, &state, STATE, &new, TERMS, &mut second, STATE);
    show_outcome(rt, label(l), outcome)
}

// `revises_damaged_state` word value text: after the value is put into the word of the state.
fn revises_damaged_state(rt: &impl Print, l: &[u8], head: &[u8]) -> io::Result<()> {
    let mut old = [0u16; TERMS];
    let mut state = [0u64; STATE];
    let mut new = [0u16; TERMS];
    let mut second = [0u64; STATE];
    reading(head, &mut old, TERMS, &mut state, STATE);
    put_word(&mut state, number_at(l, 2), word_at(l, 3));
    new_terms(l, 4, &mut new);
    let outcome = revising(&old, TERMS, &state, STATE, &new, TERMS, &mut second, STATE);
    show_outcome(rt, label(l), outcome)
}

// `asks_revised` before text call: a request, the new terms, and a request under these, which is shown.
fn asks_revised(rt: &impl Print, l: &[u8], head: &[u8]) -> io::Result<()> {
    let mut old = [0u16; TERMS];
    let mut state = [0u64; STATE];
    let mut new = [0u16; TERMS];
    let mut second = [0u64; STATE];
    reading(head, &mut old, TERMS, &mut state, STATE);
    requesting(&old, TERMS, &mut state, STATE, SCRATCH, call_at(l, 2));
    new_terms(l, 5, &mut new);
    revising(&old, TERMS, &state, STATE, &new, TERMS, &mut second, STATE);
    let answer = requesting(&new, TERMS, &mut second, STATE, SCRATCH, call_at(l, 6));
    show_answer(rt, label(l), answer)
}

// `asks_revised_after` before text after call: a request, the new terms, and two requests under
// these, of which the second is shown.
fn asks_revised_after(rt: &impl Print, l: &[u8], head: &[u8]) -> io::Result<()> {
    let mut old = [0u16; TERMS];
    let mut state = [0u64; STATE];
    let mut new = [0u16; TERMS];
    let mut second = [0u64; STATE];
    reading(head, &mut old, TERMS, &mut state, STATE);
    requesting(&old, TERMS, &mut state, STATE, SCRATCH, call_at(l, 2));
    new_terms(l, 5, &mut new);
    revising(&old, TERMS, &state, STATE, &new, TERMS, &mut second, STATE);
    requesting(&new, TERMS, &mut second, STATE, SCRATCH, call_at(l, 6));
    let answer = requesting(&new, TERMS, &mut second, STATE, SCRATCH, call_at(l, 9));
    show_answer(rt, label(l), answer)
}

// `asks_revised_twice` before text text call: a request, new terms twice, and a request under the last, which is shown.
fn asks_revised_twice(rt: &impl Print, l: &[u8], head: &[u8]) -> io::Result<()> {
    let mut old = [0u16; TERMS];
    let mut state = [0u64; STATE];
    let mut new = [0u16; TERMS];
    let mut second = [0u64; STATE];
    reading(head, &mut old, TERMS, &mut state, STATE);
    requesting(&old, TERMS, &mut state, STATE, SCRATCH, call_at(l, 2));
    new_terms(l, 5, &mut new);
    revising(&old, TERMS, &state, STATE, &new, TERMS, &mut second, STATE);
    new_terms(l, 6, &mut old);
    revising(&new, TERMS, &second, STATE, &old, TERMS, &mut state, STATE);
    let answer = requesting(&old, TERMS, &mut state, STATE, SCRATCH, call_at(l, 7));
    show_answer(rt, label(l), answer)
}

// Runs a case of what a revision gives, and says whether it is one.
fn run_outcome(rt: &impl Print, kind: &[u8], l: &[u8], head: &[u8]) -> io::Result<bool> {
    match kind {
        b"revises" => revises(rt, l, head)?,
        b"revises_damaged_old" => revises_damaged_old(rt, l, head)?,
        b"revises_damaged_new" => revises_damaged_new(rt, l, head)?,
        b"revises_damaged_state" => revises_damaged_state(rt, l, head)?,
        _ => return Ok(false),
    }
    Ok(true)
}

// Runs a case of new terms, and says whether it is one.
pub(crate) fn run(rt: &impl Print, kind: &[u8], l: &[u8], head: &[u8]) -> io::Result<bool> {
    if run_outcome(rt, kind, l, head)? {
        return Ok(true);
    }
    match kind {
        b"asks_revised" => asks_revised(rt, l, head)?,
        b"asks_revised_after" => asks_revised_after(rt, l, head)?,
        b"asks_revised_twice" => asks_revised_twice(rt, l, head)?,
        _ => return Ok(false),
    }
    Ok(true)
}
