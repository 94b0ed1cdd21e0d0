// The fields of a case: its label, numbers, calls and texts.
use fields::field::piece;

// What is called for: event, from, to.
#[derive(Clone, Copy)]
pub(crate) struct Call(pub usize, pub usize, pub usize);

// Field 1.
pub(crate) fn label(l: &[u8]) -> &[u8] {
    piece(l, 9, 1)
}

// v with one more digit; v itself where b is no digit or the number would not fit.
fn with_digit(v: u64, b: u8) -> u64 {
    if 1844674407370955161 < v {
        return v;
    }
    if b < b'0' {
        return v;
    }
    if b'9' < b {
        return v;
    }
    let d = (b - b'0') as u64;
    if 18446744073709551615 - d < v * 10 {
        return v;
    }
    v * 10 + d
}

fn value(digits: &[u8]) -> u64 {
    let mut v = 0;
    for b in digits {
        v = with_digit(v, *b);
    }
    v
}

// Field k as a word of state.
pub(crate) fn word_at(l: &[u8], k: usize) -> u64 {
    value(piece(l, 9, k))
}

// Field k as a number.
pub(crate) fn number_at(l: &[u8], k: usize) -> usize {
    word_at(l, k) as usize
}

// Field k as a word of terms.
pub(crate) fn term_at(l: &[u8], k: usize) -> u16 {
    let v = word_at(l, k);
    if v < 65536 { v as u16 } else { 65535 }
}

// The call of three fields from k on.
pub(crate) fn call_at(l: &[u8], k: usize) -> Call {
    if 100 < k {
        return Call(0, 0, 0);
    }
    let event = number_at(l, k);
    let from = number_at(l, k + 1);
    let to = number_at(l, k + 2);
    Call(event, from, to)
}

// The byte that a byte of a text stands for.
fn meant(b: u8) -> u8 {
    match b {
        b' ' => 9,
        b'/' => 10,
        b'_' => 32,
        b'~' => 13,
        b'^' => 0,
        b'|' => 47,
        b'%' => 255,
        _ => b,
    }
}

// Puts a byte, if the output has room. The next place.
fn put(out: &mut [u8], at: usize, b: u8) -> usize {
    if at < out.len() {
        out[at] = b;
        at + 1
    } else {
        at
    }
}

// Puts the bytes that a text stands for, from a place on. The place after them.
pub(crate) fn put_text(out: &mut [u8], at: usize, s: &[u8]) -> usize {
    let mut next = at;
    for b in s {
        next = put(out, next, meant(*b));
    }
    next
}
