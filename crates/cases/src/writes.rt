// Cases that read the head and write the memory out again: `writes` and its like in the old form, `stores`
// and its like in the stored form.
use crate::asks::{put_term, put_word};
use crate::columns::{call_at, label, number_at, put_text, term_at, word_at};
use crate::lent::{Outcome, ROOM, Written, reading, reading_front, requesting, writing};
use crate::show::{show_answer, show_word, show_written};
use fields::field::piece;
use fields::word::same;
use memory::layout::{SCRATCH, STATE, TERMS};
use std::io;

// `writes` terms state bytes: so many words of terms and of state into so many bytes.
fn writes(rt: &impl Print, l: &[u8], head: &[u8], stored: bool) -> io::Result<()> {
    let mut terms = [0u16; TERMS + 10];
    let mut state = [0u64; STATE + 10];
    let mut out = [0u8; ROOM];
    reading(head, &mut terms, TERMS, &mut state, STATE);
    let t = number_at(l, 2);
    let s = number_at(l, 3);
    let written = writing(stored, &terms, t, &state, s, &mut out, number_at(l, 4));
    show_written(rt, label(l), written)
}

// `writes_damaged_terms` word value: after the value is put into the word of terms.
fn writes_damaged_terms(rt: &impl Print, l: &[u8], head: &[u8], stored: bool) -> io::Result<()> {
    let mut terms = [0u16; TERMS];
    let mut state = [0u64; STATE];
    let mut out = [0u8; ROOM];
    reading(head, &mut terms, TERMS, &mut state, STATE);
    put_term(&mut terms, number_at(l, 2), term_at(l, 3));
    let written = writing(stored, &terms, TERMS, &state, STATE, &mut out, ROOM);
    show_written(rt, label(l), written)
}

// `writes_damaged_state` word value: after the value is put into the word of state.
fn writes_damaged_state(rt: &impl Print, l: &[u8], head: &[u8], stored: bool) -> io::Result<()> {
    let mut terms = [0u16; TERMS];
    let mut state = [0u64; STATE];
    let mut out = [0u8; ROOM];
    reading(head, &mut terms, TERMS, &mut state, STATE);
    put_word(&mut state, number_at(l, 2), word_at(l, 3));
    let written = writing(stored, &terms, TERMS, &state, STATE, &mut out, ROOM);
    show_written(rt, label(l), written)
}

// Whether the first n bytes of two texts are all of the second and the same.
fn is_front(out: &[u8], n: usize, wanted: &[u8], w: usize) -> bool {
    if out.len() < n {
        return false;
    }
    if wanted.len() < w {
        return false;
    }
    same(&out[0..n], &wanted[0..w])
}

// Shows what was written if it is the w bytes of the wanted text, or a refusal.
fn show_front(
    rt: &impl Print,
    l: &[u8],
    out: &[u8],
    written: Written,
    wanted: &[u8],
    w: usize,
) -> io::Result<()> {
    match written {
        Some(Ok(n)) if !is_front(out, n, wanted, w) => show_word(rt, label(l), "different"),
        _ => show_written(rt, label(l), written),
    }
}

// Shows what was written if it is the text that the wanted one stands for, or a refusal.
fn show_same(
    rt: &impl Print,
    l: &[u8],
    out: &[u8],
    written: Written,
    wanted: &[u8],
) -> io::Result<()> {
    let mut text = [0u8; ROOM];
    let w = put_text(&mut text, 0, wanted);
    show_front(rt, l, out, written, &text, w)
}

// `writes_back`: the head is read and written, which must give the same text.
fn writes_back(rt: &impl Print, l: &[u8], head: &[u8], stored: bool) -> io::Result<()> {
    let mut terms = [0u16; TERMS];
    let mut state = [0u64; STATE];
    let mut out = [0u8; ROOM];
    reading(head, &mut terms, TERMS, &mut state, STATE);
    let written = writing(stored, &terms, TERMS, &state, STATE, &mut out, ROOM);
    show_same(rt, l, &out, written, head)
}

// `writes_after` call wanted: one request, and what is written must be the wanted text.
fn writes_after(rt: &impl Print, l: &[u8], head: &[u8], stored: bool) -> io::Result<()> {
    let mut terms = [0u16; TERMS];
    let mut state = [0u64; STATE];
    let mut out = [0u8; ROOM];
    reading(head, &mut terms, TERMS, &mut state, STATE);
    requesting(&terms, TERMS, &mut state, STATE, SCRATCH, call_at(l, 2));
    let written = writing(stored, &terms, TERMS, &state, STATE, &mut out, ROOM);
    show_same(rt, l, &out, written, piece(l, 9, 5))
}

// Reads what was written. A refusal reads nothing.
fn reading_back(out: &[u8], written: Written, terms: &mut [u16], state: &mut [u64]) -> Outcome {
    match written {
        Some(Ok(n)) => reading_front(out, n, terms, TERMS, state, STATE),
        _ => None,
    }
}

// `asks_stored` before call: one request, a storing, which is read into other memory, and a
// request there, which is shown.
fn asks_stored(rt: &impl Print, l: &[u8], head: &[u8]) -> io::Result<()> {
    let mut terms = [0u16; TERMS];
    let mut state = [0u64; STATE];
    let mut out = [0u8; ROOM];
    reading(head, &mut terms, TERMS, &mut state, STATE);
    requesting(&terms, TERMS, &mut state, STATE, SCRATCH, call_at(l, 2));
    let written = writing(true, &terms, TERMS, &state, STATE, &mut out, ROOM);
    let mut terms_back = [0u16; TERMS];
    let mut state_back = [0u64; STATE];
    reading_back(&out, written, &mut terms_back, &mut state_back);
    let answer = requesting(
        &terms_back,
        TERMS,
        &mut state_back,
        STATE,
        SCRATCH,
        call_at(l, 5),
    );
    show_answer(rt, label(l), answer)
}

// Runs a case that writes the old form, and says whether it is one.
fn run_old(rt: &impl Print, kind: &[u8], l: &[u8], head: &[u8]) -> io::Result<bool> {
    match kind {
        b"writes" => writes(rt, l, head, false)?,
        b"writes_damaged_terms" => writes_damaged_terms(rt, l, head, false)?,
        b"writes_damaged_state" => writes_damaged_state(rt, l, head, false)?,
        b"writes_back" => writes_back(rt, l, head, false)?,
        b"writes_after" => writes_after(rt, l, head, false)?,
        _ => return Ok(false),
    }
    Ok(true)
}

// Runs a case that writes the stored form, and says whether it is one.
fn run_stored(rt: &impl Print, kind: &[u8], l: &[u8], head: &[u8]) -> io::Result<bool> {
    match kind {
        b"stores" => writes(rt, l, head, true)?,
        b"stores_damaged_terms" => writes_damaged_terms(rt, l, head, true)?,
        b"stores_damaged_state" => writes_damaged_state(rt, l, head, true)?,
        b"stores_back" => writes_back(rt, l, head, true)?,
        b"stores_after" => writes_after(rt, l, head, true)?,
        b"asks_stored" => asks_stored(rt, l, head)?,
        _ => return Ok(false),
    }
    Ok(true)
}

// Runs a case of these kinds, and says whether it is one.
pub(crate) fn run(rt: &impl Print, kind: &[u8], l: &[u8], head: &[u8]) -> io::Result<bool> {
    if run_old(rt, kind, l, head)? {
        return Ok(true);
    }
    run_stored(rt, kind, l, head)
}
