// What set lists of a state and of a bank share: by which numbers records are answered, and what is counted.
ghost use Rattle.std.specs.Prelude.{◌≡◌, ◌+◌, ◌<◌, ◌^◌};
ghost use Rattle.calls.specs.Monitor.{answer_of};
ghost use Rattle.calls.specs.SetList.{answer_number, gain_of};

use calls::{Answer, Verdict};

// The number that is filled in for an answer.
pub(crate) fn number_of(a: Answer) -> u32
    requires { answer_number (answer_of a) < 2 ^ 32 }
    ensures { result ≡ answer_number (answer_of a) }
{
    match a {
        Answer::Decided(Verdict::Grant) => 1,
        Answer::Decided(Verdict::Deny) => 0,
        Answer::Refused(n, _) => n as u32,
    }
}

// The count, with one more for a grant.
pub(crate) fn tally(count: usize, answer: u32) -> usize
    requires { count + 1 < 2 ^ 64 }
    ensures { result ≡ count + gain_of answer }
{
    if answer == 1 { count + 1 } else { count }
}
