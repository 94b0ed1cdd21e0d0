// The calls over the front of lent memory. Where memory does not reach so far, no call is made: there is no outcome, and
// an answer is a refusal by 0, which no call gives.
use crate::columns::{Call, put_text};
use calls::Answer;
use memory::layout::SCRATCH;
use memory::refusal::Refusal;
use monitor::revise::revise;
use monitor::{look, request};
use text::read::read;
use writer::store::store;
use writer::write::write;

// What a call gives, if one is made.
pub(crate) type Outcome = Option<Result<(), Refusal>>;

// What a writing gives, if one is made.
pub(crate) type Written = Option<Result<usize, Refusal>>;

// Bytes of a text, enough for those of the cases.
pub(crate) const ROOM: usize = 8192;

// Reads into the first t words of terms and s of state.
fn reading_into(text: &[u8], terms: &mut [u16], t: usize, state: &mut [u64], s: usize) -> Outcome {
    if terms.len() < t {
        return None;
    }
    if state.len() < s {
        return None;
    }
    Some(read(text, &mut terms[0..t], &mut state[0..s]))
}

// Reads the first n bytes of a text.
pub(crate) fn reading_front(
    text: &[u8],
    n: usize,
    terms: &mut [u16],
    t: usize,
    state: &mut [u64],
    s: usize,
) -> Outcome {
    if text.len() < n {
        return None;
    }
    reading_into(&text[0..n], terms, t, state, s)
}

// Reads the text that a head stands for.
pub(crate) fn reading(
    head: &[u8],
    terms: &mut [u16],
    t: usize,
    state: &mut [u64],
    s: usize,
) -> Outcome {
    let mut text = [0u8; ROOM];
    let n = put_text(&mut text, 0, head);
    reading_front(&text, n, terms, t, state, s)
}

// Requests with the first t words of terms and s of state.
fn requesting_with(
    terms: &[u16],
    t: usize,
    state: &mut [u64],
    s: usize,
    scratch: &mut [u64],
    call: Call,
) -> Answer {
    if terms.len() < t {
        return Answer::Refused(0, 0);
    }
    if state.len() < s {
        return Answer::Refused(0, 0);
    }
    request(
        &terms[0..t],
        &mut state[0..s],
        scratch,
        call.0,
        call.1,
        call.2,
    )
}

// Requests with the first t words of terms, s of state and c of scratch.
pub(crate) fn requesting(
    terms: &[u16],
    t: usize,
    state: &mut [u64],
    s: usize,
    c: usize,
    call: Call,
) -> Answer {
    let mut scratch = [0u64; SCRATCH + 10];
    if scratch.len() < c {
        return Answer::Refused(0, 0);
    }
    requesting_with(terms, t, state, s, &mut scratch[0..c], call)
}

// Looks with the first t words of terms, s of state and c of scratch.
pub(crate) fn looking(
    terms: &[u16],
    t: usize,
    state: &[u64],
    s: usize,
    c: usize,
    call: Call,
) -> Answer {
    let scratch = [0u64; SCRATCH + 10];
    if terms.len() < t {
        return Answer::Refused(0, 0);
    }
    if state.len() < s {
        return Answer::Refused(0, 0);
    }
    if scratch.len() < c {
        return Answer::Refused(0, 0);
    }
    look(
        &terms[0..t],
        &state[0..s],
        &scratch[0..c],
        call.0,
        call.1,
        call.2,
    )
}

// Revises the first t words of old terms and s of state to the first n words of new terms, into
// the first m of a second state.
pub(crate) fn revising(
    old: &[u16],
    t: usize,
    state: &[u64],
    s: usize,
    new: &[u16],
    n: usize,
    second: &mut [u64],
    m: usize,
) -> Outcome {
    if old.len() < t {
        return None;
    }
    if state.len() < s {
        return None;
    }
    if new.len() < n {
        return None;
    }
    if second.len() < m {
        return None;
    }
    Some(revise(&old[0..t], &state[0..s], &new[0..n], &mut second[0..m]))
}

// Writes the first t words of terms and s of state into the first n bytes of out, in the stored form or the old.
pub(crate) fn writing(
    stored: bool,
    terms: &[u16],
    t: usize,
    state: &[u64],
    s: usize,
    out: &mut [u8],
    n: usize,
) -> Written {
    if terms.len() < t {
        return None;
    }
    if state.len() < s {
        return None;
    }
    if out.len() < n {
        return None;
    }
    Some(if stored {
        store(&terms[0..t], &state[0..s], &mut out[0..n])
    } else {
        write(&terms[0..t], &state[0..s], &mut out[0..n])
    })
}
