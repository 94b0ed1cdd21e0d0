// Why something is refused, by the numbers and lines of docs/SCOPE.md, Refusals.
ghost use Rattle.std.specs.Prelude.{◌≡◌};
ghost use Rattle.memory.specs.Refusal.{fault_number, refusal_number, refusal_line};

// What a line of a text has wrong.
#[derive(Clone, Copy, PartialEq, Eq)]
pub enum Fault {
    Form,
    Range,
    Operand,
    Past,
    Policy,
    Reach,
    Table,
}

// A line of a text has a fault, or lent memory is too short, terms or a state are none, a name stands for nothing, a
// state is no fresh start, sizes differ, a plan or an entry may not be asked, or new numbers are none.
#[derive(Clone, Copy, PartialEq, Eq)]
pub enum Refusal {
    Line(Fault, usize),
    Short,
    Terms,
    State,
    Name,
    Fresh,
    Size,
    Plan,
    Numbers,
}

impl Fault {
    // Its number.
    pub fn number(self) -> usize
        ensures { result ≡ fault_number self }
    {
        match self {
            Fault::Form => 1,
            Fault::Range => 2,
            Fault::Operand => 3,
            Fault::Past => 4,
            Fault::Policy => 5,
            Fault::Reach => 10,
            Fault::Table => 11,
        }
    }
}

impl Refusal {
    // Its number.
    pub fn number(self) -> usize
        ensures { result ≡ refusal_number self }
    {
        match self {
            Refusal::Line(fault, _) => fault.number(),
            Refusal::Short => 6,
            Refusal::Terms => 7,
            Refusal::State => 8,
            Refusal::Name => 9,
            Refusal::Fresh => 12,
            Refusal::Size => 13,
            Refusal::Plan => 14,
            Refusal::Numbers => 15,
        }
    }

    // The line at which a text is refused, else 0.
    pub fn line(self) -> usize
        ensures { result ≡ refusal_line self }
    {
        match self {
            Refusal::Line(_, line) => line,
            _ => 0,
        }
    }
}
