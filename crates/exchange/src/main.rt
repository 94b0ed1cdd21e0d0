// Answers the requests of requests.tsv by the terms of terms.tsv, both in the current
// folder (docs/SCOPE.md, The program).
#![tactic(auto)]

ghost use Rattle.std.specs.Prelude.{◌≡◌, ◌≤◌, length, take};
ghost use Rattle.writer.specs.Write.{writing_of};
ghost use Rattle.transcript.specs.Output.{transcript_gives, transcript_leaves};

use memory::refusal::Refusal;
use std::rt::Files;

// As many bytes as a file may have, and one more: a longer file is noticed by it.
const TOO_MANY: usize = 65537;

// As many bytes as the longest output has (`transcript`).
const OUTPUT: usize = 983040;

// Reads what a file has, as far as buf reaches, and gives the count of bytes. A file that
// cannot be opened counts as empty.
fn contents(rt: &impl Files, path: &str, buf: &mut [u8; TOO_MANY]) -> usize
    ensures within { result ≤ length buf.new }
    ensures front { result ≡ length (take result buf.new) }
{
    match system::contents(rt, path, buf) {
        Ok(n) => n,
        Err(_) => 0,
    }
}

// Writes the first n bytes of out, or says that they cannot be written.
fn print_front(rt: &(impl Print + Eprint), out: &[u8], n: usize) {
    if out.len() < n {
        let _ = rt.eprintln("output too long");
        return;
    }
    if let Err(error) = rt.write_all(&out[..n]) {
        system::say_failed(rt, "standard output", error);
    }
}

// Writes what was put into out, all of it at once. A refusal, which an output of this length
// never gets, counts as too long.
fn print(rt: &(impl Print + Eprint), out: &[u8; OUTPUT], written: Result<usize, Refusal>) {
    match written {
        Ok(n) => print_front(rt, out, n),
        Err(_) => print_front(rt, out, OUTPUT + 1),
    }
}

// One call of the transcript, into an output that is long enough for every one.
fn answer(terms: &[u8], requests: &[u8], out: &mut [u8; OUTPUT]) -> Result<usize, Refusal>
    ensures result_value { writing_of result ≡ transcript_gives terms.now requests.now out.old }
    ensures out_after { out.new ≡ transcript_leaves terms.now requests.now out.old }
{
    transcript::transcript(terms, requests, out)
}

fn main(rt: HostRuntime) {
    let mut terms = [0u8; TOO_MANY];
    let mut requests = [0u8; TOO_MANY];
    let mut out = [0u8; OUTPUT];
    let t = contents(&rt, "terms.tsv", &mut terms);
    let r = contents(&rt, "requests.tsv", &mut requests);
    let written = answer(&terms[..t], &requests[..r], &mut out);
    print(&rt, &out, written);
}
