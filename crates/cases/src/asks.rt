// Cases that read the head and make calls. A text that is refused leaves memory of zeros, which the calls refuse by 7.
use crate::columns::{Call, call_at, label, number_at, term_at, word_at};
use crate::lent::{looking, reading, requesting};
use crate::show::show_answer;
use memory::layout::{SCRATCH, STATE, TERMS};
use std::io;

// `asks` call: one request.
fn asks(rt: &impl Print, l: &[u8], head: &[u8]) -> io::Result<()> {
    let mut terms = [0u16; TERMS];
    let mut state = [0u64; STATE];
    reading(head, &mut terms, TERMS, &mut state, STATE);
    let answer = requesting(&terms, TERMS, &mut state, STATE, SCRATCH, call_at(l, 2));
    show_answer(rt, label(l), answer)
}

// `looks` call: one look.
fn looks(rt: &impl Print, l: &[u8], head: &[u8]) -> io::Result<()> {
    let mut terms = [0u16; TERMS];
    let mut state = [0u64; STATE];
    reading(head, &mut terms, TERMS, &mut state, STATE);
    let answer = looking(&terms, TERMS, &state, STATE, SCRATCH, call_at(l, 2));
    show_answer(rt, label(l), answer)
}

// `asks_after` before call: two requests, of which the second is shown.
fn asks_after(rt: &impl Print, l: &[u8], head: &[u8]) -> io::Result<()> {
    let mut terms = [0u16; TERMS];
    let mut state = [0u64; STATE];
    reading(head, &mut terms, TERMS, &mut state, STATE);
    requesting(&terms, TERMS, &mut state, STATE, SCRATCH, call_at(l, 2));
    let answer = requesting(&terms, TERMS, &mut state, STATE, SCRATCH, call_at(l, 5));
    show_answer(rt, label(l), answer)
}

// `asks_after_two` first second call: three requests, of which the third is shown.
fn asks_after_two(rt: &impl Print, l: &[u8], head: &[u8]) -> io::Result<()> {
    let mut terms = [0u16; TERMS];
    let mut state = [0u64; STATE];
    reading(head, &mut terms, TERMS, &mut state, STATE);
    requesting(&terms, TERMS, &mut state, STATE, SCRATCH, call_at(l, 2));
    requesting(&terms, TERMS, &mut state, STATE, SCRATCH, call_at(l, 5));
    let answer = requesting(&terms, TERMS, &mut state, STATE, SCRATCH, call_at(l, 8));
    show_answer(rt, label(l), answer)
}

// `asks_after_look` before call: a look, then a request, which is shown.
fn asks_after_look(rt: &impl Print, l: &[u8], head: &[u8]) -> io::Result<()> {
    let mut terms = [0u16; TERMS];
    let mut state = [0u64; STATE];
    reading(head, &mut terms, TERMS, &mut state, STATE);
    looking(&terms, TERMS, &state, STATE, SCRATCH, call_at(l, 2));
    let answer = requesting(&terms, TERMS, &mut state, STATE, SCRATCH, call_at(l, 5));
    show_answer(rt, label(l), answer)
}

// `asks_with` terms state scratch call: one request with so many words of each.
fn asks_with(rt: &impl Print, l: &[u8], head: &[u8]) -> io::Result<()> {
    let mut terms = [0u16; TERMS + 10];
    let mut state = [0u64; STATE + 10];
    reading(head, &mut terms, TERMS, &mut state, STATE);
    let t = number_at(l, 2);
    let s = number_at(l, 3);
    let answer = requesting(&terms, t, &mut state, s, number_at(l, 4), call_at(l, 5));
    show_answer(rt, label(l), answer)
}

// `looks_with` terms state scratch call: the same with a look.
fn looks_with(rt: &impl Print, l: &[u8], head: &[u8]) -> io::Result<()> {
    let mut terms = [0u16; TERMS + 10];
    let mut state = [0u64; STATE + 10];
    reading(head, &mut terms, TERMS, &mut state, STATE);
    let t = number_at(l, 2);
    let s = number_at(l, 3);
    let answer = looking(&terms, t, &state, s, number_at(l, 4), call_at(l, 5));
    show_answer(rt, label(l), answer)
}

// Puts a value into a word of terms.
pub(crate) fn put_term(terms: &mut [u16], word: usize, value: u16) {
    if word < terms.len() {
        terms[word] = value;
    }
}

// Puts a value into a word of state.
pub(crate) fn put_word(state: &mut [u64], word: usize, value: u64) {
    if word < state.len() {
        state[word] = value;
    }
}

// `asks_damaged_terms` word value: request 0 0 0 after the value is put into the word of terms.
fn asks_damaged_terms(rt: &impl Print, l: &[u8], head: &[u8]) -> io::Result<()> {
    let mut terms = [0u16; TERMS];
    let mut state = [0u64; STATE];
    reading(head, &mut terms, TERMS, &mut state, STATE);
    put_term(&mut terms, number_at(l, 2), term_at(l, 3));
    let answer = requesting(&terms, TERMS, &mut state, STATE, SCRATCH, Call(0, 0, 0));
    show_answer(rt, label(l), answer)
}

// `asks_damaged_state` word value: request 0 0 0 after the value is put into the word of state.
fn asks_damaged_state(rt: &impl Print, l: &[u8], head: &[u8]) -> io::Result<()> {
    let mut terms = [0u16; TERMS];
    let mut state = [0u64; STATE];
    reading(head, &mut terms, TERMS, &mut state, STATE);
    put_word(&mut state, number_at(l, 2), word_at(l, 3));
    let answer = requesting(&terms, TERMS, &mut state, STATE, SCRATCH, Call(0, 0, 0));
    show_answer(rt, label(l), answer)
}

// Runs a case of plain calls, and says whether it is one.
pub(crate) fn run(rt: &impl Print, kind: &[u8], l: &[u8], head: &[u8]) -> io::Result<bool> {
    match kind {
        b"asks" => asks(rt, l, head)?,
        b"looks" => looks(rt, l, head)?,
        b"asks_after" => asks_after(rt, l, head)?,
        b"asks_after_two" => asks_after_two(rt, l, head)?,
        b"asks_after_look" => asks_after_look(rt, l, head)?,
        _ => return Ok(false),
    }
    Ok(true)
}

// Runs a case of calls with other lengths or other words, and says whether it is one.
pub(crate) fn run_with(rt: &impl Print, kind: &[u8], l: &[u8], head: &[u8]) -> io::Result<bool> {
    match kind {
        b"asks_with" => asks_with(rt, l, head)?,
        b"looks_with" => looks_with(rt, l, head)?,
        b"asks_damaged_terms" => asks_damaged_terms(rt, l, head)?,
        b"asks_damaged_state" => asks_damaged_state(rt, l, head)?,
        _ => return Ok(false),
    }
    Ok(true)
}
