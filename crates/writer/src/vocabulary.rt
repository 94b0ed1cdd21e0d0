// Words: the word of a number is put, each word a byte string of its own.
ghost use Rattle.std.specs.Prelude.{[], ◌∷◌, ◌^◌, ◌<◌, get_or};
ghost use Rattle.fields.specs.private.Put.{Put};
ghost use Rattle.file.specs.private.Kinds.{kind_number};
ghost use Rattle.file.specs.Words.{operator_words, action_words, direction_words, kind_words};

use fields::emit::put_bytes;
use file::vocabulary::Kind;
use theory::operators::{AT, BIND, IN, MANY, NOT, OR, OUT, PREV, REACH, SINCE, TOP, VAR};

// Puts the word of operator op; nothing for what is no operator.
pub(crate) fn put_operator(out: &mut [u8], at: usize, op: usize) -> usize
    requires { at < 2 ^ 61 }
    ensures { Put out.old out.new at result (get_or operator_words op []) }
{
    match op {
        TOP => put_bytes(out, at, b"top"),
        VAR => put_bytes(out, at, b"var"),
        NOT => put_bytes(out, at, b"not"),
        OR => put_bytes(out, at, b"or"),
        OUT => put_bytes(out, at, b"out"),
        IN => put_bytes(out, at, b"in"),
        PREV => put_bytes(out, at, b"prev"),
        SINCE => put_bytes(out, at, b"since"),
        BIND => put_bytes(out, at, b"bind"),
        AT => put_bytes(out, at, b"at"),
        REACH => put_bytes(out, at, b"reach"),
        MANY => put_bytes(out, at, b"many"),
        _ => at,
    }
}

// Puts the word of an action, 1 add or 2 del; nothing for any other number.
pub(crate) fn put_action(out: &mut [u8], at: usize, action: usize) -> usize
    requires { at < 2 ^ 61 }
    ensures { Put out.old out.new at result (get_or ([] ∷ action_words) action []) }
{
    match action {
        1 => put_bytes(out, at, b"add"),
        2 => put_bytes(out, at, b"del"),
        _ => at,
    }
}

// Puts the word of a direction, 0 fwd or 1 back; nothing from 2 up.
pub(crate) fn put_direction(out: &mut [u8], at: usize, direction: usize) -> usize
    requires { at < 2 ^ 61 }
    ensures { Put out.old out.new at result (get_or direction_words direction []) }
{
    match direction {
        0 => put_bytes(out, at, b"fwd"),
        1 => put_bytes(out, at, b"back"),
        _ => at,
    }
}

// Puts the word of a line kind.
#[tactic(auto, unfolding(file::specs::Words::kind_words))]
pub(crate) fn put_kind(out: &mut [u8], at: usize, kind: Kind) -> usize
    requires { at < 2 ^ 61 }
    ensures { Put out.old out.new at result (get_or kind_words (kind_number kind) []) }
{
    match kind {
        Kind::Members => put_bytes(out, at, b"M"),
        Kind::Labels => put_bytes(out, at, b"L"),
        Kind::Entry => put_bytes(out, at, b"F"),
        Kind::Policy => put_bytes(out, at, b"P"),
        Kind::Effect => put_bytes(out, at, b"E"),
        Kind::Edge => put_bytes(out, at, b"G"),
        Kind::Form => put_bytes(out, at, b"S"),
        Kind::Table => put_bytes(out, at, b"T"),
        Kind::Event => put_bytes(out, at, b"V"),
        Kind::Mark => put_bytes(out, at, b"K"),
    }
}
