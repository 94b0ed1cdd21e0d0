// Two banks over one circle: what their calls give and leave, and that this is what the keeper says. The crate has
// definitions and laws, and no function.
#![tactic(auto)]
