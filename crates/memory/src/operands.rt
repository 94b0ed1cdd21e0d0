// What the three operands of an operator are (docs/SCOPE.md, Meaning).
ghost use Rattle.std.specs.Prelude.{◌≡◌};
ghost use Rattle.theory.specs.Formula.{first_operand, second_operand, third_operand};
ghost use Rattle.memory.specs.private.Operands.{operand_kind};

use theory::operators::{AT, BIND, IN, MANY, NOT, OR, OUT, PREV, REACH, SINCE, VAR};

// Not used, a variable, a variable to bind, a label, an entry, a number of members.
#[derive(Clone, Copy, PartialEq, Eq)]
pub enum Kind {
    Unused,
    Variable,
    Binder,
    Label,
    Entry,
    Count,
}

#[derive(Clone, Copy, PartialEq, Eq)]
pub struct Operands {
    pub first: Kind,
    pub second: Kind,
    pub third: Kind,
}

// Operands of these kinds.
fn kinds(first: Kind, second: Kind, third: Kind) -> Operands
    ensures { (result.first ≡ first) × (result.second ≡ second) × (result.third ≡ third) }
{
    Operands {
        first,
        second,
        third,
    }
}

// The table of operands. Top uses none, nor does what is no operator.
pub fn operands_of(op: usize) -> Operands
    ensures first_value { operand_kind result.first ≡ first_operand op }
    ensures second_value { operand_kind result.second ≡ second_operand op }
    ensures third_value { operand_kind result.third ≡ third_operand op }
{
    match op {
        VAR => kinds(Kind::Variable, Kind::Unused, Kind::Unused),
        NOT | PREV => kinds(Kind::Entry, Kind::Unused, Kind::Unused),
        OR | SINCE => kinds(Kind::Entry, Kind::Entry, Kind::Unused),
        OUT | IN => kinds(Kind::Label, Kind::Entry, Kind::Unused),
        BIND => kinds(Kind::Binder, Kind::Entry, Kind::Unused),
        AT => kinds(Kind::Variable, Kind::Entry, Kind::Unused),
        REACH => kinds(Kind::Variable, Kind::Entry, Kind::Entry),
        MANY => kinds(Kind::Label, Kind::Entry, Kind::Count),
        _ => kinds(Kind::Unused, Kind::Unused, Kind::Unused),
    }
}
