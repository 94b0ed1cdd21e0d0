// The counters of the reader, in place of what the lines have said: before the first line,
// and after each that has passed.
ghost use Rattle.std.specs.Prelude.{◌≡◌, ◌<◌};
ghost use Rattle.reader.specs.private.Stepping.{begun, is_complete, slot, Ranges, stepped};

use file::line::Line;
use memory::table_index::is_past;

// What the lines so far have said, in numbers: tables counts the prev and since entries, marks is one past the last
// event marked as kept, effects counts those of event, and relation, from and to are the last edge or bit of a table.
#[derive(Clone, Copy)]
pub struct Context {
    pub stored: bool,
    pub phase: usize,
    pub members: usize,
    pub relations: usize,
    pub events: usize,
    pub entries: usize,
    pub tables: usize,
    pub policies: usize,
    pub marks: usize,
    pub event: usize,
    pub effects: usize,
    pub relation: usize,
    pub from: usize,
    pub to: usize,
}

// No line yet.
pub(crate) fn begin() -> Context
    ensures { result ≡ begun }
{
    Context {
        stored: false,
        phase: 0,
        members: 0,
        relations: 0,
        events: 0,
        entries: 0,
        tables: 0,
        policies: 0,
        marks: 0,
        event: 0,
        effects: 0,
        relation: 0,
        from: 0,
        to: 0,
    }
}

// Whether all policies have been given, so that K, E, G, T and V lines, or the end, are due.
pub(crate) fn is_complete(c: Context) -> bool
    ensures { result ≡ is_complete c }
{
    2 <= c.phase && c.policies == c.events
}

// How many effects of event j there are.
pub(crate) fn slot_of(c: Context, j: usize) -> usize
    ensures { result ≡ slot c j }
{
    if j == c.event { c.effects } else { 0 }
}

// The counters after a line that has passed.
#[tactic(auto, unfolding(crate::specs::private::Stepping::stepped))]
pub(crate) fn step(c: Context, line: Line) -> Context
    requires ranges { Ranges c line }
    requires tables_bound { c.tables < 33 }
    ensures { result ≡ stepped c line }
{
    let mut d = c;
    match line {
        Line::Members(n) => {
            d.phase = 1;
            d.members = n;
        }
        Line::Labels(r, e) => {
            d.phase = 2;
            d.relations = r;
            d.events = e;
        }
        Line::Entry(n, o, _, _, _) => {
            d.phase = 3;
            d.entries = n + 1;
            if is_past(o) {
                d.tables = c.tables + 1;
            }
        }
        Line::Policy(j, _) => {
            d.phase = 4;
            d.policies = j + 1;
        }
        Line::Effect(j, _, _, _) => {
            d.phase = 5;
            d.effects = slot_of(c, j) + 1;
            d.event = j;
        }
        Line::Edge(k, a, b) => {
            d.phase = 6;
            d.relation = k;
            d.from = a;
            d.to = b;
        }
        Line::Form(_) => {
            d.stored = true;
        }
        Line::TableBit(t, a, b) => {
            d.phase = 7;
            d.relation = t;
            d.from = a;
            d.to = b;
        }
        Line::PairBit(t, a, b, e) => {
            d.phase = 7;
            d.relation = t;
            d.from = 4 * a + b / 4;
            d.to = 16 * (b % 4) + e;
        }
        Line::EventEdge(_, _, _) => {
            d.phase = 8;
        }
        Line::Mark(j) => {
            d.phase = 4;
            d.marks = j + 1;
        }
        Line::Malformed => {}
    }
    d
}
