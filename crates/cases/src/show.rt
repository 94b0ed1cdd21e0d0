// The line of a case: its label, a tab, the result.
use crate::lent::{Outcome, Written};
use calls::{Answer, Verdict};
use memory::refusal::Refusal;
use std::io;

// A result that is one word.
pub(crate) fn show_word(rt: &impl Print, label: &[u8], word: &str) -> io::Result<()> {
    rt.write_all(label)?;
    println!(rt; "\t{word}")
}

// A result that is a word and a number.
fn show_count(rt: &impl Print, label: &[u8], word: &str, n: usize) -> io::Result<()> {
    rt.write_all(label)?;
    println!(rt; "\t{word}\t{n}")
}

// A refusal: its number and line, or 0 where no call is made.
fn show_refusal(rt: &impl Print, label: &[u8], refusal: Option<Refusal>) -> io::Result<()> {
    let number = refusal.map_or(0, |r| r.number());
    let line = refusal.map_or(0, |r| r.line());
    rt.write_all(label)?;
    println!(rt; "\t{number}\t{line}")
}

pub(crate) fn show_outcome(rt: &impl Print, label: &[u8], outcome: Outcome) -> io::Result<()> {
    match outcome {
        Some(Ok(())) => show_word(rt, label, "accepted"),
        Some(Err(refusal)) => show_refusal(rt, label, Some(refusal)),
        None => show_refusal(rt, label, None),
    }
}

pub(crate) fn show_answer(rt: &impl Print, label: &[u8], answer: Answer) -> io::Result<()> {
    match answer {
        Answer::Decided(Verdict::Grant) => show_word(rt, label, "grant"),
        Answer::Decided(Verdict::Deny) => show_word(rt, label, "deny"),
        Answer::Refused(number, _) => show_count(rt, label, "refuse", number),
    }
}

pub(crate) fn show_written(rt: &impl Print, label: &[u8], written: Written) -> io::Result<()> {
    match written {
        Some(Ok(n)) => show_count(rt, label, "bytes", n),
        Some(Err(refusal)) => show_refusal(rt, label, Some(refusal)),
        None => show_refusal(rt, label, None),
    }
}
