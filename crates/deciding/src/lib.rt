// Deciding by rows, and rows that are remembered: definitions that the monitor's private contracts cite, and their
// laws. The crate has no function.
#![tactic(auto)]

pub mod slot;
