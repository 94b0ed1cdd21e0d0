// The writer of a terms file and of its stored form, over lent memory.
#![tactic(auto)]

mod bits;
mod fresh;
mod pairs;
mod print;
mod skip;
pub mod store;
mod vocabulary;
pub mod write;
