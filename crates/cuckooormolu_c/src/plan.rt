// What C links for plans, and to be told of an entry.
ghost use Rattle.std.specs.Prelude.{◌≡◌};
ghost use Rattle.calls.specs.Telling.{tells};
ghost use Rattle.plans.specs.Plans.{ruling, scratch_after_ruling};
ghost use Rattle.cuckooormolu.specs.Codes.{ruling_code, telling_code};

#[unsafe(no_mangle)]
pub extern "C" fn cuckooormolu_raw_plan(
    terms: &[u16],
    state: &[u64],
    scratch: &mut [u64],
    plan: &[usize],
    planner: usize,
    rival: usize,
    goal: usize,
    first: usize,
    second: usize,
) -> usize
    ensures value { result ≡ ruling_code (ruling terms.now state.now scratch.old plan.now planner rival goal first second) }
    ensures scratch_after { scratch.new ≡ scratch_after_ruling scratch.old (ruling terms.now state.now scratch.old plan.now planner rival goal first second) }
{
    cuckooormolu::plan::cuckooormolu_raw_plan(
        terms, state, scratch, plan, planner, rival, goal, first, second,
    )
}

#[unsafe(no_mangle)]
pub extern "C" fn cuckooormolu_raw_tell(
    terms: &[u16],
    state: &[u64],
    entry: usize,
    first: usize,
    second: usize,
) -> usize
    ensures { result ≡ telling_code (tells terms.now state.now entry first second) }
{
    cuckooormolu::plan::cuckooormolu_raw_tell(terms, state, entry, first, second)
}
