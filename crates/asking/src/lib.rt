// What the arguments of the program `ask` ask, the messages of a trace or the blocks of a proof that they hand over or
// name, and the lists of a collection to be written.
#![tactic(auto)]

pub mod asked;
pub mod lists;
pub mod series;
