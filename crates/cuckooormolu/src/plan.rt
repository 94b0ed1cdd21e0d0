// What a host links for plans, and to be told of an entry. Their codes are no permission: none of them is DONE, DENIED
// or GRANTED.
ghost use Rattle.std.specs.Prelude.{◌≡◌};
ghost use Rattle.calls.specs.Telling.{telling_of, tells};
ghost use Rattle.plans.specs.Plans.{ruling_of, ruling, scratch_after_ruling};
ghost use Rattle.cuckooormolu.specs.Codes.{ruling_code, telling_code};

use memory::refusal::Refusal;

// Accepted and rejected differ in three bits, an entry that holds and one that fails in four.
pub const REJECTED: usize = 400;

pub const ACCEPTED: usize = 500;

pub const FAILS: usize = 600;

pub const HOLDS: usize = 700;

fn ruling_code(accepted: Result<bool, Refusal>) -> usize
    ensures { result ≡ ruling_code (ruling_of accepted) }
{
    match accepted {
        Ok(true) => ACCEPTED,
        Ok(false) => REJECTED,
        Err(refusal) => refusal.number(),
    }
}

fn telling_code(holds: Result<bool, Refusal>) -> usize
    ensures { result ≡ telling_code (telling_of holds) }
{
    match holds {
        Ok(true) => HOLDS,
        Ok(false) => FAILS,
        Err(refusal) => refusal.number(),
    }
}

// Whether a plan, event and target of each request in turn, reaches its goal at the pair whatever the rival does
// between: ACCEPTED, REJECTED, 6, 7, 8, 14 or 9.
#[unsafe(no_mangle)]
pub extern "C" fn cuckooormolu_raw_plan(
    terms: &[u16],
    state: &[u64],
    scratch: &mut [u64],
    plan: &[usize],
    planner: usize,
    rival: usize,
    goal: usize,
    first: usize,
    second: usize,
) -> usize
    ensures value { result ≡ ruling_code (ruling terms.now state.now scratch.old plan.now planner rival goal first second) }
    ensures scratch_after { scratch.new ≡ scratch_after_ruling scratch.old (ruling terms.now state.now scratch.old plan.now planner rival goal first second) }
{
    ruling_code(plans::forced(
        terms, state, scratch, plan, planner, rival, goal, first, second,
    ))
}

// Whether an entry holds now at the pair's first member, with variable 0 standing for its second: HOLDS, FAILS, 6, 7,
// 8, 14 or 9.
#[unsafe(no_mangle)]
pub extern "C" fn cuckooormolu_raw_tell(
    terms: &[u16],
    state: &[u64],
    entry: usize,
    first: usize,
    second: usize,
) -> usize
    ensures { result ≡ telling_code (tells terms.now state.now entry first second) }
{
    telling_code(monitor::tell(terms, state, entry, first, second))
}
