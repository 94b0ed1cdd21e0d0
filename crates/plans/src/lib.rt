// Can a rival keep me from it? A plan of one to three requests, ruled upon by playing it against everything that a
// rival may do between (docs/SCOPE.md, Plans).
#![tactic(auto)]

ghost use Rattle.std.specs.Prelude.{◌≡◌};
ghost use Rattle.plans.specs.Plans.{ruling_of, ruling, scratch_after_ruling};

use memory::limits::ENTRIES;
use memory::refusal::Refusal;

mod checks;
mod game;

// Whether a plan is accepted: whatever the rival does between, the goal holds at u, with variable 0 standing for v, after
// one of the planner's moves. A plan is event and target of each move in turn. A verdict leaves the named words of scratch 0; a
// refusal leaves them as lent.
pub fn forced(
    terms: &[u16],
    state: &[u64],
    scratch: &mut [u64],
    plan: &[usize],
    planner: usize,
    rival: usize,
    goal: usize,
    u: usize,
    v: usize,
) -> Result<bool, Refusal>
    ensures result_value { ruling_of result ≡ ruling terms.now state.now scratch.old plan.now planner rival goal u v }
    ensures scratch_after { scratch.new ≡ scratch_after_ruling scratch.old (ruling terms.now state.now scratch.old plan.now planner rival goal u v) }
{
    if scratch.len() < game::GAME {
        return Err(Refusal::Short);
    }
    let mut tables = [0u16; ENTRIES];
    memory::inspect_entry(terms, state, goal, &mut tables)?;
    if !checks::is_game(terms, plan, planner, rival) {
        return Err(Refusal::Plan);
    }
    if !checks::is_known(terms, plan, planner, rival, u, v) {
        return Err(Refusal::Name);
    }
    Ok(game::play(
        terms,
        state,
        &mut scratch[0..game::GAME],
        plan,
        planner,
        rival,
        goal,
        u,
        v,
    ))
}
