// One line of a terms file: its fields, as parts of the text, and what they say.
ghost use Rattle.std.specs.Prelude.{◌≡◌, [], get_or, cond, Some, None};
ghost use Rattle.std.specs.Option.{unwrap_or};
ghost use Rattle.fields.specs.Split.{split};
ghost use Rattle.fields.specs.Number.{number_of};
ghost use Rattle.file.specs.Line.{entry_line, effect_line, parsed};
ghost use Rattle.file.specs.private.Numbers.{are_numbers, numbers_of};
ghost use Rattle.file.specs.declared.line.Line.TheVariants.{Malformed};

use crate::vocabulary::{Kind, read_action, read_direction, read_kind, read_operator};
use fields::field::{piece, pieces};
use fields::number::read_number;
use theory::operators::{MANY, REACH};

// One line of a terms file, as what it says.
#[derive(Clone, Copy)]
pub enum Line {
    Members(usize),
    Labels(usize, usize),
    Entry(usize, usize, usize, usize, usize),
    Policy(usize, usize),
    Effect(usize, usize, usize, usize),
    Edge(usize, usize, usize),
    Form(usize),
    TableBit(usize, usize, usize),
    PairBit(usize, usize, usize, usize),
    EventEdge(usize, usize, usize),
    Mark(usize),
    Malformed,
}

// Field k as a number.
fn number_at(l: &[u8], k: usize) -> Option<usize>
    ensures { result ≡ number_of (get_or (split 9 l.now) k []) }
{
    read_number(piece(l, 9, k))
}

// The N numbers of a line of N fields more than its first, each a number.
fn numbers<const N: usize>(l: &[u8]) -> Option<[usize; N]>
    ensures { result ≡ cond (are_numbers N (split 9 l.now)) (Some (numbers_of N (split 9 l.now))) None }
{
    if pieces(l, 9) - 1 != N {
        return None;
    }
    let mut a = [0; N];
    for k in 0..N {
        a[k] = number_at(l, k + 1)?;
    }
    Some(a)
}

// A line `F` entry word a b; with a third operand c where the operator has one.
fn entry_line(l: &[u8]) -> Option<Line>
    ensures { unwrap_or result Malformed ≡ entry_line (split 9 l.now) }
{
    let o = read_operator(piece(l, 9, 2))?;
    let third = (o == REACH) | (o == MANY);
    if pieces(l, 9) != 5 + usize::from(third) {
        return None;
    }
    let n = number_at(l, 1)?;
    let a = number_at(l, 3)?;
    let b = number_at(l, 4)?;
    let c = if third { number_at(l, 5)? } else { 0 };
    Some(Line::Entry(n, o, a, b, c))
}

// A line `E` event action relation direction.
fn effect_line(l: &[u8]) -> Option<Line>
    ensures { unwrap_or result Malformed ≡ effect_line (split 9 l.now) }
{
    if pieces(l, 9) != 5 {
        return None;
    }
    let j = number_at(l, 1)?;
    let action = read_action(piece(l, 9, 2))?;
    let k = number_at(l, 3)?;
    let direction = read_direction(piece(l, 9, 4))?;
    Some(Line::Effect(j, action, k, direction))
}

// What a line says, by the kind that its first field names, if it is well formed. A `T` line has a fifth field where its
// table has two columns.
fn said(l: &[u8]) -> Option<Line>
    ensures { unwrap_or result Malformed ≡ parsed (split 9 l.now) }
{
    match read_kind(piece(l, 9, 0))? {
        Kind::Members => {
            let [n] = numbers::<1>(l)?;
            Some(Line::Members(n))
        },
        Kind::Labels => {
            let [r, e] = numbers::<2>(l)?;
            Some(Line::Labels(r, e))
        },
        Kind::Entry => entry_line(l),
        Kind::Policy => {
            let [j, n] = numbers::<2>(l)?;
            Some(Line::Policy(j, n))
        },
        Kind::Effect => effect_line(l),
        Kind::Edge => {
            let [k, a, b] = numbers::<3>(l)?;
            Some(Line::Edge(k, a, b))
        },
        Kind::Form => {
            let [n] = numbers::<1>(l)?;
            Some(Line::Form(n))
        },
        Kind::Table if pieces(l, 9) == 5 => {
            let [t, a, b, c] = numbers::<4>(l)?;
            Some(Line::PairBit(t, a, b, c))
        },
        Kind::Table => {
            let [t, a, b] = numbers::<3>(l)?;
            Some(Line::TableBit(t, a, b))
        },
        Kind::Event => {
            let [j, u, v] = numbers::<3>(l)?;
            Some(Line::EventEdge(j, u, v))
        },
        Kind::Mark => {
            let [j] = numbers::<1>(l)?;
            Some(Line::Mark(j))
        },
    }
}

// What a line says.
pub fn parse_line(l: &[u8]) -> Line
    ensures { result ≡ parsed (split 9 l.now) }
{
    said(l).unwrap_or(Line::Malformed)
}
