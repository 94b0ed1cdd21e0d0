// Bytes parted into fields, fields as numbers and words, and bytes, numbers and words put into an output.
#![tactic(auto)]

pub mod emit;
pub mod field;
pub mod lines;
pub mod number;
mod put;
pub mod word;
