// The policy asked and the next moment made, in place, of a state and of two banks. These functions are the monitor's
// own: they require what its checks have found, and no host can call them.
#![tactic(auto)]

pub mod apart;
pub mod beside;
mod effects;
pub mod moment;
