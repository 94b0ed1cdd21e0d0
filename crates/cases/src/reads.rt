// Cases that read a text.
use crate::columns::{label, number_at, put_text};
use crate::lent::{ROOM, reading, reading_front};
use crate::show::show_outcome;
use fields::emit::put_decimal;
use fields::field::piece;
use memory::layout::{STATE, TERMS};
use std::io;

// Reads the first n bytes of a text into memory of the named lengths.
fn show_reading(rt: &impl Print, l: &[u8], text: &[u8], n: usize) -> io::Result<()> {
    let mut terms = [0u16; TERMS];
    let mut state = [0u64; STATE];
    let outcome = reading_front(text, n, &mut terms, TERMS, &mut state, STATE);
    show_outcome(rt, label(l), outcome)
}

// `reads` text.
fn reads(rt: &impl Print, l: &[u8]) -> io::Result<()> {
    let mut text = [0u8; ROOM];
    let n = put_text(&mut text, 0, piece(l, 9, 2));
    show_reading(rt, l, &text, n)
}

// `reads_parts` rest: the head and the rest.
fn reads_parts(rt: &impl Print, l: &[u8], head: &[u8]) -> io::Result<()> {
    let mut text = [0u8; ROOM];
    let n = put_text(&mut text, 0, head);
    let n = put_text(&mut text, n, piece(l, 9, 2));
    show_reading(rt, l, &text, n)
}

// Puts a line for each number from first up to end, which is left out: before, the number, after.
fn put_lines(
    out: &mut [u8],
    at: usize,
    before: &[u8],
    first: usize,
    end: usize,
    after: &[u8],
) -> usize {
    let mut next = at;
    for i in first..end {
        next = put_text(out, next, before);
        next = put_decimal(out, next, i);
        next = put_text(out, next, after);
    }
    next
}

// `reads_lines` before first end after tail: the head, the lines, the tail.
fn reads_lines(rt: &impl Print, l: &[u8], head: &[u8]) -> io::Result<()> {
    let mut text = [0u8; ROOM];
    let n = put_text(&mut text, 0, head);
    let first = number_at(l, 3);
    let end = number_at(l, 4);
    let n = put_lines(&mut text, n, piece(l, 9, 2), first, end, piece(l, 9, 5));
    let n = put_text(&mut text, n, piece(l, 9, 6));
    show_reading(rt, l, &text, n)
}

// `reads_into` terms state: the head, into so many words.
fn reads_into(rt: &impl Print, l: &[u8], head: &[u8]) -> io::Result<()> {
    let mut terms = [0u16; TERMS + 10];
    let mut state = [0u64; STATE + 10];
    let outcome = reading(
        head,
        &mut terms,
        number_at(l, 2),
        &mut state,
        number_at(l, 3),
    );
    show_outcome(rt, label(l), outcome)
}

// Runs a case of these kinds, and says whether it is one.
pub(crate) fn run(rt: &impl Print, kind: &[u8], l: &[u8], head: &[u8]) -> io::Result<bool> {
    match kind {
        b"reads" => reads(rt, l)?,
        b"reads_parts" => reads_parts(rt, l, head)?,
        b"reads_lines" => reads_lines(rt, l, head)?,
        b"reads_into" => reads_into(rt, l, head)?,
        _ => return Ok(false),
    }
    Ok(true)
}
