// The terms file (docs/SCOPE.md, The terms file): what each line says, and what a text says as
// a whole. The code reads a line.
#![tactic(auto)]

pub mod line;
pub mod vocabulary;
