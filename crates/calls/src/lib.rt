// What a call answers, and a record of a set list; definitions and laws.
#![tactic(auto)]

ghost use Rattle.std.specs.Prelude.{◌≡◌};
ghost use Rattle.calls.specs.Monitor.{answer_of, answer_to};

use memory::refusal::Refusal;

// What a decided request carries.
#[derive(Clone, Copy)]
pub enum Verdict {
    Grant,
    Deny,
}

// A decided request carries its verdict, a refused one its number and line. (Its form is prescribed: docs/SCOPE.md,
// Forms.)
#[derive(Clone, Copy)]
pub enum Answer {
    Decided(Verdict),
    Refused(usize, usize),
}

impl From<Result<Verdict, Refusal>> for Answer {
    ghost from_gives = { λ ruled a. answer_of a ≡ answer_to ruled };

    fn from(ruled: Result<Verdict, Refusal>) -> Answer {
        match ruled {
            Ok(verdict) => Answer::Decided(verdict),
            Err(refusal) => Answer::Refused(refusal.number(), refusal.line()),
        }
    }
}

// A request and its answer: 0 for deny, 1 for grant, 9 where event, from or to names nothing.
#[repr(C)]
#[derive(Clone, Copy)]
pub struct Record {
    pub event: u32,
    pub from: u32,
    pub to: u32,
    pub answer: u32,
}
