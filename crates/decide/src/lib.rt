// Deciding an entry at the present moment, by rows. Crate deciding has the definitions and the laws. These functions
// are the monitor's own: they require what its checks have found, and no host can call them.
#![tactic(auto)]

mod decide;
mod edges;
pub mod memo;
pub mod memo_choice;
mod pairs;
pub mod present;
pub mod queries;
mod rows;
pub mod tables;
