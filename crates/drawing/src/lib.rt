// The drawn parts of a card: the states of each class, those that are settled, and a witness as two traces.
#![tactic(auto)]

mod runs;
pub mod settled;
pub mod states;
pub mod traces;
