// The moment itself, in place: the effects of the event, if it is granted, and the event edge.
ghost use Rattle.std.specs.Prelude.{◌≡◌, true, cond, List, ◌++◌, ℕ, ◌+◌, ◌<◌, ◌≤◌, eqb, length, get_or};
ghost use Rattle.sets.specs.Sets.{bit};
ghost use Rattle.theory.specs.Limits.{max_members, max_events, max_effects};
ghost use Rattle.memory.specs.Layout.{state_words, relation_words, own_words, tried_from, effect_at, terms_of};
ghost use Rattle.memory.specs.Checks.{good_memory};
ghost use Rattle.theory.specs.Tables.{named};
ghost use Rattle.deciding.specs.private.Moving.{Becomes, effect_of, affected, all_affected, occurring, evented, entered};

use memory::layout;
use memory::limits::EFFECTS;

// The rows of a relation, and the event word, of a bank's own words, with its units.
const ROWS: usize = layout::BLOCK;

const EVENT: usize = layout::OWN_EVENT_AT;

const EVENT_UNIT: usize = layout::EVENT_UNIT as usize;

const FROM_UNIT: usize = layout::FROM_UNIT as usize;

const TRIED_FROM: usize = layout::TRIED_FROM as usize;

// w with b, or without it.
fn changed(w: u64, adds: bool, b: usize) -> u64
    requires { b < max_members }
    ensures { (m : ℕ) → bit result m ≡ cond (eqb m b) adds (bit w m) }
{
    if adds {
        sets::with(w, b)
    } else {
        sets::without(w, b)
    }
}

// y of an edge that goes back, else x.
fn end(back: bool, x: usize, y: usize) -> usize
    ensures { result ≡ cond back y x }
{
    if back { y } else { x }
}

// The effect in three words of terms from `at` on: an edge is added or deleted.
fn make_effect(terms: &[u16], relations: &mut [u64], at: usize, from: usize, to: usize)
    requires terms_value { (good_memory terms.now ≡ true) × (at < 65536) × (get_or terms.now (at + 1) 0 < (terms_of terms.now).relations) }
    requires from_bound { (from < (terms_of terms.now).members) × (to < (terms_of terms.now).members) × (length relations.old ≡ relation_words) }
    ensures { (own : List ℕ) → Becomes terms.now (affected from to (effect_of terms.now at)) (relations.old ++ own) (relations.new ++ own) }
{
    let back = layout::word(terms, at + 2) == 1;
    let i = ROWS * layout::word(terms, at + 1) + end(back, from, to);
    relations[i] = changed(
        relations[i],
        layout::word(terms, at) == 1,
        end(back, to, from),
    );
}

// The first word of effect i of an event.
fn effect_at(event: usize, i: usize) -> usize
    requires { (event < max_events) × (i < max_effects) }
    ensures { result ≡ effect_at event i }
{
    layout::EFFECTS_AT + layout::EVENT * event + layout::EFFECT * i
}

// The effects of the event, in listed order.
pub(crate) fn make_effects(
    terms: &[u16],
    relations: &mut [u64],
    event: usize,
    from: usize,
    to: usize,
)
    requires { (good_memory terms.now ≡ true) × (named (terms_of terms.now) event from to ≡ true) × (length relations.old ≡ relation_words) }
    ensures { (own : List ℕ) → Becomes terms.now (all_affected event from to) (relations.old ++ own) (relations.new ++ own) }
{
    for i in 0..EFFECTS {
        let at = effect_at(event, i);
        if layout::word(terms, at) == 0 {
            return;
        }
        make_effect(terms, relations, at, from, to);
    }
}

// The number by which the event word holds an event, granted or denied.
fn held(granted: bool, event: usize) -> usize
    requires { event < max_events }
    ensures { (result ≡ cond granted event (tried_from + event)) × (result < 32) }
{
    if granted { event } else { TRIED_FROM + event }
}

// The one event edge is then the event's, granted or denied.
pub(crate) fn put_event(
    terms: &[u16],
    own: &mut [u64],
    granted: bool,
    event: usize,
    from: usize,
    to: usize,
)
    requires { (good_memory terms.now ≡ true) × (named (terms_of terms.now) event from to ≡ true) × (own_words ≤ length own.old) }
    ensures { (relations : List ℕ) → length relations ≡ relation_words → Becomes terms.now (evented (occurring granted event from to)) (relations ++ own.old) (relations ++ own.new) }
{
    let number = held(granted, event);
    own[EVENT] = (1 + number * EVENT_UNIT + from * FROM_UNIT + to) as u64;
}

// The moment itself: the effects, if the request is granted, and the event edge.
pub(crate) fn enter(
    terms: &[u16],
    relations: &mut [u64],
    own: &mut [u64],
    granted: bool,
    event: usize,
    from: usize,
    to: usize,
)
    requires { (good_memory terms.now ≡ true) × (named (terms_of terms.now) event from to ≡ true) × (length relations.old ≡ relation_words) × (own_words ≤ length own.old) }
    ensures { Becomes terms.now (entered granted event from to) (relations.old ++ own.old) (relations.new ++ own.new) }
{
    if granted {
        make_effects(terms, relations, event, from, to);
    }
    put_event(terms, own, granted, event, from, to);
}
