// Plans, and entries that are told, after any file with a record. The crate has laws, and no function.
#![tactic(auto)]
