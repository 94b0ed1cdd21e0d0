// The statements of all top theorems (proofs/Demands.antt). The crate has laws, and no function.
#![tactic(auto)]
