// Playing a plan against a rival: three states in lent words, one for each of the planner's moves. Every move is a
// request, and the goal is told, by the monitor's public functions alone.
ghost use Rattle.std.specs.Prelude.{◌≡◌, ◌||◌, ◌+◌, ◌-◌, ◌*◌, ◌<◌, ◌≤◌, length, get_or, replicate};
ghost use Rattle.memory.specs.Layout.{state_words, terms_of};
ghost use Rattle.calls.specs.Telling.{telling_of, affirms};
ghost use Rattle.plans.specs.Game.{game_words};
ghost use Rattle.plans.specs.Plans.{stepped, reached_in, accepted};
ghost use Rattle.plans.specs.private.Playing.{standing, Spared, Placed, Playable, offered, replied, outlasts};

use crate::checks;
use crate::checks::number_at;
use memory::layout::{SCRATCH, STATE};
use memory::refusal::Refusal;
use memory::{clear, layout};

// The words that a game is lent: three states, and the scratch of a request.
pub(crate) const GAME: usize = 3 * STATE + SCRATCH;

// The rival's moves in number: TARGETS * j + v is its request of event j with target v, and PASS, the last, is a pass.
const TARGETS: usize = checks::MEMBERS;

const PASS: usize = TARGETS * checks::EVENTS;

const MOVES: usize = PASS + 1;

// Copies words of the same number. (A loop, since the library's copy may call `memmove`.)
fn copy_words(part: &mut [u64], from: &[u64])
    requires { length part.old ≡ length from.now }
    ensures { part.new ≡ from.now }
{
    for (i, word) in part.iter_mut().enumerate() {
        *word = from[i];
    }
}

// Copies the state that stands from a place on behind itself.
fn copy_on(words: &mut [u64], at: usize)
    requires { at + state_words + state_words ≤ length words.old }
    ensures { Placed (at + state_words) (standing at words.old) words.old words.new }
{
    let (standing, behind) = words.split_at_mut(at + STATE);
    behind[0..STATE].copy_from_slice(&standing[at..at + STATE]);
}

// Whether an entry is told to hold.
fn is_affirmed(told: Result<bool, Refusal>) -> bool
    ensures { result ≡ affirms (telling_of told) }
{
    matches!(told, Ok(true))
}

// What a request leaves of a state.
fn step(terms: &[u16], state: &mut [u64], event: usize, from: usize, to: usize)
    ensures { state.new ≡ stepped terms.now state.old event from to }
{
    let mut rows = [0u64; SCRATCH];
    monitor::request(terms, state, &mut rows, event, from, to);
}

// The same of the state that stands from a place on.
fn step_at(terms: &[u16], words: &mut [u64], at: usize, event: usize, from: usize, to: usize)
    requires { at + state_words ≤ length words.old }
    ensures { Placed at (stepped terms.now (standing at words.old) event from to) words.old words.new }
{
    step(terms, &mut words[at..at + STATE], event, from, to);
}

// The planner's move k, on the state that stands from a place on: whether the goal holds after it.
fn attempt(
    terms: &[u16],
    words: &mut [u64],
    at: usize,
    plan: &[usize],
    k: usize,
    planner: usize,
    goal: usize,
    u: usize,
    v: usize,
) -> bool
    requires { (k < 4) × (at + state_words ≤ length words.old) }
    ensures value { result ≡ reached_in terms.now goal u v (stepped terms.now (standing at words.old) (get_or plan.now (2 * k) 0) planner (get_or plan.now (2 * k + 1) 0)) }
    ensures placed { Placed at (stepped terms.now (standing at words.old) (get_or plan.now (2 * k) 0) planner (get_or plan.now (2 * k + 1) 0)) words.old words.new }
{
    step_at(
        terms,
        words,
        at,
        number_at(plan, 2 * k),
        planner,
        number_at(plan, 2 * k + 1),
    );
    is_affirmed(monitor::tell(terms, &words[at..at + STATE], goal, u, v))
}

// The rival's move i, on a copy of the state that stands from a place on, behind it.
fn reply(terms: &[u16], words: &mut [u64], at: usize, rival: usize, i: usize)
    requires { at + state_words + state_words ≤ length words.old }
    ensures { Placed (at + state_words) (replied terms.now rival i (standing at words.old)) words.old words.new }
{
    copy_on(words, at);
    if i != PASS {
        step_at(terms, words, at + STATE, i / TARGETS, rival, i % TARGETS);
    }
}

// Whether i is the number of a move that the rival has.
fn is_offered(terms: &[u16], i: usize) -> bool
    ensures { result ≡ offered (terms_of terms.now) i }
{
    (i == PASS) | ((i / TARGETS < layout::events(terms)) & (i % TARGETS < layout::members(terms)))
}

// Whether the goal is reached already, or, whatever the rival does now and between, after one of the planner's moves
// from number k on. The state after the planner's last move stands from a place on; it and the words before it are
// spared.
fn always(
    terms: &[u16],
    words: &mut [u64],
    at: usize,
    plan: &[usize],
    k: usize,
    done: bool,
    planner: usize,
    rival: usize,
    goal: usize,
    u: usize,
    v: usize,
) -> bool
    requires playable { Playable terms.now plan.now planner rival goal u v }
    requires k_bound { (k < 4) × (at + state_words * (4 - k) ≤ length words.old) × (at + state_words ≤ length words.old) }
    ensures value { result ≡ (done || outlasts terms.now plan.now planner rival goal u v k (standing at words.old)) }
    ensures spared { Spared (at + state_words) words.old words.new }
{
    if done {
        return true;
    }
    if plan.len() / 2 <= k {
        return false;
    }
    for i in 0..MOVES {
        if is_offered(terms, i) {
            reply(terms, words, at, rival, i);
            let won = attempt(terms, words, at + STATE, plan, k, planner, goal, u, v);
            if !always(
                terms,
                words,
                at + STATE,
                plan,
                k + 1,
                won,
                planner,
                rival,
                goal,
                u,
                v,
            ) {
                return false;
            }
        }
    }
    true
}

// Whether the plan is accepted: the goal is reached whatever the rival does between. All words are left 0.
pub(crate) fn play(
    terms: &[u16],
    state: &[u64],
    words: &mut [u64],
    plan: &[usize],
    planner: usize,
    rival: usize,
    goal: usize,
    u: usize,
    v: usize,
) -> bool
    requires playable { Playable terms.now plan.now planner rival goal u v }
    requires state_words_in_bounds { (state_words ≤ length state.now) × (length words.old ≡ game_words) }
    ensures value { result ≡ accepted terms.now state.now plan.now planner rival goal u v }
    ensures words_after { words.new ≡ replicate game_words 0 }
{
    copy_words(&mut words[0..STATE], &state[0..STATE]);
    let won = attempt(terms, words, 0, plan, 0, planner, goal, u, v);
    let r = always(terms, words, 0, plan, 1, won, planner, rival, goal, u, v);
    clear(&mut words[0..GAME]);
    r
}
