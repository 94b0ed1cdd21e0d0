// The operators of entries by their numbers (docs/SCOPE.md, Meaning).
pub const TOP: usize = 0;

pub const VAR: usize = 1;

pub const NOT: usize = 2;

pub const OR: usize = 3;

pub const OUT: usize = 4;

pub const IN: usize = 5;

pub const PREV: usize = 6;

pub const SINCE: usize = 7;

pub const BIND: usize = 8;

pub const AT: usize = 9;

pub const REACH: usize = 10;

pub const MANY: usize = 11;

// How many there are.
pub const OPERATORS: usize = 12;
