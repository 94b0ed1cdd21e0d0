// The reader of a terms file, of the old form and of the stored one, into lent memory.
#![tactic(auto)]

mod free;
pub mod read;
mod refusal;
mod refusal_11;
mod step;
mod store;

// The forms of a text.
#[derive(Clone, Copy, PartialEq, Eq)]
pub enum Form {
    Old,
    Stored,
}
