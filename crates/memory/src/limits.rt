// The most members, relations, events, entries, past-time tables, effects of an event, and variables that there may be,
// and the most that `many` asks for (docs/SCOPE.md, The terms file).
pub const MEMBERS: usize = 64;

pub const RELATIONS: usize = 16;

pub const EVENTS: usize = 16;

pub const ENTRIES: usize = 256;

pub const TABLES: usize = 32;

pub const EFFECTS: usize = 4;

pub const VARIABLES: usize = 16;

pub const COUNT: usize = 64;

// The most members with which a past-time table has two columns.
pub const PAIR_MEMBERS: usize = 16;
