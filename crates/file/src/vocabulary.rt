// Word fields: operators, actions, directions and the kinds of lines, each by its word.
ghost use Rattle.std.specs.Prelude.{◌≡◌, cond, ltb, Some, None};
ghost use Rattle.theory.specs.Formula.{operators};
ghost use Rattle.file.specs.Words.{operator_of, action_of, direction_of, kind_of};
ghost use Rattle.file.specs.private.Kinds.{kind_told};

use fields::word::same;
use theory::operators::{AT, BIND, IN, MANY, NOT, OR, OUT, PREV, REACH, SINCE, TOP, VAR};

// The kinds of lines, in the order of their words: M, L, F, P, E, G, S, T, V, K.
#[derive(Clone, Copy, PartialEq, Eq)]
pub enum Kind {
    Members,
    Labels,
    Entry,
    Policy,
    Effect,
    Edge,
    Form,
    Table,
    Event,
    Mark,
}

// The number of the operator whose word f is. (A table of words would be a table of addresses, which the archive does
// without.)
pub fn read_operator(f: &[u8]) -> Option<usize>
    ensures { result ≡ cond (ltb (operator_of f.now) operators) (Some (operator_of f.now)) None }
{
    if same(f, b"top") {
        Some(TOP)
    } else if same(f, b"var") {
        Some(VAR)
    } else if same(f, b"not") {
        Some(NOT)
    } else if same(f, b"or") {
        Some(OR)
    } else if same(f, b"out") {
        Some(OUT)
    } else if same(f, b"in") {
        Some(IN)
    } else if same(f, b"prev") {
        Some(PREV)
    } else if same(f, b"since") {
        Some(SINCE)
    } else if same(f, b"bind") {
        Some(BIND)
    } else if same(f, b"at") {
        Some(AT)
    } else if same(f, b"reach") {
        Some(REACH)
    } else if same(f, b"many") {
        Some(MANY)
    } else {
        None
    }
}

// 1 for add, 2 for del.
pub fn read_action(f: &[u8]) -> Option<usize>
    ensures { result ≡ cond (ltb 0 (action_of f.now)) (Some (action_of f.now)) None }
{
    if same(f, b"add") {
        Some(1)
    } else if same(f, b"del") {
        Some(2)
    } else {
        None
    }
}

// 0 for fwd, 1 for back.
pub fn read_direction(f: &[u8]) -> Option<usize>
    ensures { result ≡ cond (ltb (direction_of f.now) 2) (Some (direction_of f.now)) None }
{
    if same(f, b"fwd") {
        Some(0)
    } else if same(f, b"back") {
        Some(1)
    } else {
        None
    }
}

// The kind of a line, by its first field.
pub fn read_kind(f: &[u8]) -> Option<Kind>
    ensures { kind_told result ≡ kind_of f.now }
{
    match f {
        b"M" => Some(Kind::Members),
        b"L" => Some(Kind::Labels),
        b"F" => Some(Kind::Entry),
        b"P" => Some(Kind::Policy),
        b"E" => Some(Kind::Effect),
        b"G" => Some(Kind::Edge),
        b"S" => Some(Kind::Form),
        b"T" => Some(Kind::Table),
        b"V" => Some(Kind::Event),
        b"K" => Some(Kind::Mark),
        _ => None,
    }
}
