// What a plan must be before it is played: refusals 14 and 9.
ghost use Rattle.std.specs.Prelude.{◌≡◌, true, get_or, take};
ghost use Rattle.theory.specs.Fit.{every};
ghost use Rattle.memory.specs.Layout.{terms_of};
ghost use Rattle.plans.specs.Game.{game_tests, known_tests};

use memory::layout;

// The most members and events that a game may have.
pub(crate) const MEMBERS: usize = 8;

pub(crate) const EVENTS: usize = 4;

// Number i of a plan; 0 past the end.
pub(crate) fn number_at(plan: &[usize], i: usize) -> usize
    ensures { result ≡ get_or plan.now i 0 }
{
    if i < plan.len() { plan[i] } else { 0 }
}

// Whether the terms are small enough for a game, the plan is 1 to 3 whole requests, and there are two sides: refusal
// 14, apart from the goal.
pub(crate) fn is_game(terms: &[u16], plan: &[usize], planner: usize, rival: usize) -> bool
    ensures { result ≡ every (take 4 (game_tests (terms_of terms.now) plan.now planner rival 0)) }
{
    let n = plan.len();
    (layout::members(terms) <= MEMBERS)
        & ((layout::events(terms) <= EVENTS)
            & (((n == 2) | ((n == 4) | (n == 6))) & !(planner == rival)))
}

// Whether each request of the plan names an event and a member.
fn plan_named(terms: &[u16], plan: &[usize]) -> bool
    ensures { result ≡ get_or (known_tests (terms_of terms.now) plan.now 0 0 0 0) 4 true }
{
    let e = layout::events(terms);
    let n = layout::members(terms);
    let mut ok = true;
    for k in 0..plan.len() / 2 {
        ok = ((number_at(plan, 2 * k) < e) & (number_at(plan, 2 * k + 1) < n)) & ok;
    }
    ok
}

// Whether planner, rival, the pair and the plan name members and events: refusal 9.
pub(crate) fn is_known(
    terms: &[u16],
    plan: &[usize],
    planner: usize,
    rival: usize,
    u: usize,
    v: usize,
) -> bool
    ensures { result ≡ every (known_tests (terms_of terms.now) plan.now planner rival u v) }
{
    let n = layout::members(terms);
    (planner < n) & ((rival < n) & ((u < n) & ((v < n) & plan_named(terms, plan))))
}
