use memory::layout;
use memory::limits::VARIABLES;

// The bytes of a word.
pub const BYTES: usize = 8;

// The words of a slot: a row for each member, a byte for what each variable stood for, the set of members
// that have a row, the variables that the entry reads, its column, and for each member the set of those
// whose bits in the row are known.
pub const VALUES: usize = layout::BLOCK;

pub const HAVE: usize = VALUES + VARIABLES / BYTES;

pub const READS: usize = HAVE + 1;

pub const COLUMN: usize = READS + 1;

pub const KNOWN: usize = COLUMN + 1;

pub const SLOT: usize = KNOWN + layout::BLOCK;
