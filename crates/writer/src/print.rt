// Lines: each puts its kind, its fields with a tab before each, and a line feed. A line has at most 32 bytes.
ghost use Rattle.std.specs.Prelude.{[], ◌∷◌, ◌++◌, ◌+◌, ◌^◌, ◌<◌, ◌≤◌, get_or};
ghost use Rattle.fields.specs.Split.{join};
ghost use Rattle.fields.specs.Number.{digits};
ghost use Rattle.fields.specs.private.Put.{Put};
ghost use Rattle.file.specs.private.Kinds.{kind_number};
ghost use Rattle.file.specs.Words.{operator_words, action_words, direction_words, kind_words};
ghost use Rattle.file.specs.Line.{printed};
ghost use Rattle.file.specs.declared.line.Line.TheVariants.{Entry, Effect};

use crate::vocabulary::{put_action, put_direction, put_kind, put_operator};
use fields::emit::{put_byte, put_decimal};
use file::vocabulary::Kind;
use theory::operators::{MANY, REACH};

// Puts a tab and the digits of n.
fn put_field(out: &mut [u8], at: usize, n: usize) -> usize
    requires { (n < 100000) × (at < 2 ^ 60) }
    ensures put { Put out.old out.new at result (9 ∷ digits n) }
    ensures upper_bound { result ≤ at + 6 }
{
    let next = put_byte(out, at, 9);
    put_decimal(out, next, n)
}

// Puts a tab and the word of operator op.
fn put_operator_field(out: &mut [u8], at: usize, op: usize) -> usize
    requires { at < 2 ^ 60 }
    ensures put { Put out.old out.new at result (9 ∷ get_or operator_words op []) }
    ensures upper_bound { result ≤ at + 6 }
{
    let next = put_byte(out, at, 9);
    put_operator(out, next, op)
}

// Puts a tab and the word of an action.
fn put_action_field(out: &mut [u8], at: usize, action: usize) -> usize
    requires { at < 2 ^ 60 }
    ensures put { Put out.old out.new at result (9 ∷ get_or ([] ∷ action_words) action []) }
    ensures upper_bound { result ≤ at + 6 }
{
    let next = put_byte(out, at, 9);
    put_action(out, next, action)
}

// Puts a tab and the word of a direction.
fn put_direction_field(out: &mut [u8], at: usize, direction: usize) -> usize
    requires { at < 2 ^ 60 }
    ensures put { Put out.old out.new at result (9 ∷ get_or direction_words direction []) }
    ensures upper_bound { result ≤ at + 6 }
{
    let next = put_byte(out, at, 9);
    put_direction(out, next, direction)
}

// Puts the word of a line kind, a tab and the digits of n: so every line begins.
fn put_head(out: &mut [u8], at: usize, kind: Kind, n: usize) -> usize
    requires { (n < 100000) × (at < 2 ^ 59) }
    ensures put { Put out.old out.new at result (join 9 (get_or kind_words (kind_number kind) [] ∷ digits n ∷ [])) }
    ensures upper_bound { result ≤ at + 7 }
{
    let next = put_kind(out, at, kind);
    put_field(out, next, n)
}

// Puts a line of a kind and one number: M, S and K. It has at most 8 bytes.
pub(crate) fn put_single(out: &mut [u8], at: usize, kind: Kind, n: usize) -> usize
    requires { (n < 100000) × (at < 2 ^ 58) }
    ensures put { Put out.old out.new at result (join 9 (get_or kind_words (kind_number kind) [] ∷ digits n ∷ []) ++ (10 ∷ [])) }
    ensures upper_bound { result ≤ at + 8 }
{
    let first = put_head(out, at, kind, n);
    put_byte(out, first, 10)
}

// Puts a line of a kind and two numbers: L and P.
pub(crate) fn put_pair(out: &mut [u8], at: usize, kind: Kind, n: usize, a: usize) -> usize
    requires { (n < 100000) × (a < 100000) × (at < 2 ^ 58) }
    ensures put { Put out.old out.new at result (join 9 (get_or kind_words (kind_number kind) [] ∷ digits n ∷ digits a ∷ []) ++ (10 ∷ [])) }
    ensures upper_bound { result ≤ at + 32 }
{
    let first = put_head(out, at, kind, n);
    let second = put_field(out, first, a);
    put_byte(out, second, 10)
}

// Puts a line of a kind and three numbers: G, T and V.
pub(crate) fn put_triple(
    out: &mut [u8],
    at: usize,
    kind: Kind,
    n: usize,
    a: usize,
    b: usize,
) -> usize
    requires { (n < 100000) × (a < 100000) × (b < 100000) × (at < 2 ^ 58) }
    ensures put { Put out.old out.new at result (join 9 (get_or kind_words (kind_number kind) [] ∷ digits n ∷ digits a ∷ digits b ∷ []) ++ (10 ∷ [])) }
    ensures upper_bound { result ≤ at + 32 }
{
    let first = put_head(out, at, kind, n);
    let second = put_field(out, first, a);
    let third = put_field(out, second, b);
    put_byte(out, third, 10)
}

// Puts a line of a kind and four numbers: T of a table with two columns.
pub(crate) fn put_quad(
    out: &mut [u8],
    at: usize,
    kind: Kind,
    n: usize,
    a: usize,
    b: usize,
    c: usize,
) -> usize
    requires { (n < 100000) × (a < 100000) × (b < 100000) × (c < 100000) × (at < 2 ^ 58) }
    ensures put { Put out.old out.new at result (join 9 (get_or kind_words (kind_number kind) [] ∷ digits n ∷ digits a ∷ digits b ∷ digits c ∷ []) ++ (10 ∷ [])) }
    ensures upper_bound { result ≤ at + 32 }
{
    let first = put_head(out, at, kind, n);
    let second = put_field(out, first, a);
    let third = put_field(out, second, b);
    let fourth = put_field(out, third, c);
    put_byte(out, fourth, 10)
}

// Puts an F line, with a sixth field where its operator has a third operand.
pub(crate) fn put_entry(
    out: &mut [u8],
    at: usize,
    n: usize,
    op: usize,
    a: usize,
    b: usize,
    c: usize,
) -> usize
    requires { (n < 100000) × (a < 100000) × (b < 100000) × (c < 100000) × (at < 2 ^ 58) }
    ensures put { Put out.old out.new at result (printed (Entry n op a b c) ++ (10 ∷ [])) }
    ensures upper_bound { result ≤ at + 32 }
{
    let first = put_head(out, at, Kind::Entry, n);
    let second = put_operator_field(out, first, op);
    let third = put_field(out, second, a);
    let fourth = put_field(out, third, b);
    if (op == REACH) | (op == MANY) {
        let fifth = put_field(out, fourth, c);
        return put_byte(out, fifth, 10);
    }
    put_byte(out, fourth, 10)
}

// Puts an E line.
pub(crate) fn put_effect(out: &mut [u8], at: usize, j: usize, c: usize, k: usize, d: usize) -> usize
    requires { (j < 100000) × (k < 100000) × (at < 2 ^ 58) }
    ensures put { Put out.old out.new at result (printed (Effect j c k d) ++ (10 ∷ [])) }
    ensures upper_bound { result ≤ at + 32 }
{
    let first = put_head(out, at, Kind::Effect, j);
    let second = put_action_field(out, first, c);
    let third = put_field(out, second, k);
    let fourth = put_direction_field(out, third, d);
    put_byte(out, fourth, 10)
}
