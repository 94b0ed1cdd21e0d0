// Runs the cases of cases.tsv in the current folder: every case of docs/SCOPE.md, Cases, and a dozen more of
// each refusal. A case prints one line: its label, a tab, the result. The keeper reads the same file and works
// out by itself what is to be printed.
#![tactic(auto)]

mod asks;
mod columns;
mod lent;
mod reads;
mod revises;
mod show;
mod writes;

ghost use Rattle.std.specs.Prelude.{◌≡◌, ◌≤◌, length, take};

use columns::label;
use fields::field::{piece, pieces};
use fields::word::same;
use show::show_word;
use std::io;
use std::rt::Files;

// More bytes than the file has.
const ROOM: usize = 131072;

// Reads what a file has, as far as buf reaches, and gives the count of bytes. A file that cannot be opened counts
// as empty, and standard error says so.
fn contents(rt: &(impl Files + Eprint), path: &str, buf: &mut [u8; ROOM]) -> usize
    ensures within { result ≤ length buf.new }
    ensures front { result ≡ length (take result buf.new) }
{
    match system::contents(rt, path, buf) {
        Ok(n) => n,
        Err(error) => {
            system::say_failed(rt, path, error);
            0
        }
    }
}

// Whether a line is no case: an empty one, or a comment.
fn is_comment(l: &[u8]) -> bool {
    if l.len() == 0 {
        return true;
    }
    l[0] == b'#'
}

// Runs a case. One of a kind that there is not says so.
fn run(rt: &impl Print, l: &[u8], head: &[u8]) -> io::Result<()> {
    if is_comment(l) {
        return Ok(());
    }
    let kind = piece(l, 9, 0);
    if reads::run(rt, kind, l, head)? {
        return Ok(());
    }
    if asks::run(rt, kind, l, head)? {
        return Ok(());
    }
    if asks::run_with(rt, kind, l, head)? {
        return Ok(());
    }
    if writes::run(rt, kind, l, head)? {
        return Ok(());
    }
    if revises::run(rt, kind, l, head)? {
        return Ok(());
    }
    show_word(rt, label(l), "unknown")
}

// Runs line k. The line of the head that holds from there on.
fn step(rt: &impl Print, file: &[u8], k: usize, head: usize) -> io::Result<usize> {
    let l = piece(file, 10, k);
    if same(piece(l, 9, 0), b"head") {
        return Ok(k);
    }
    run(rt, l, piece(piece(file, 10, head), 9, 1))?;
    Ok(head)
}

// Runs every line.
fn run_all(rt: &impl Print, file: &[u8]) -> io::Result<()> {
    let mut head = 0;
    for k in 0..pieces(file, 10) {
        head = step(rt, file, k, head)?;
    }
    Ok(())
}

fn main(rt: HostRuntime) -> io::Result<()> {
    let mut file = [0u8; ROOM];
    let n = contents(&rt, "cases.tsv", &mut file);
    run_all(&rt, &file[..n])
}
