// The theory has definitions and laws, and three numbers that code needs as well.
#![tactic(auto)]

// The greatest number of states and of symbols: `state_limit` and `symbol_limit` in specs/Monitor.antt.
pub const STATE_LIMIT: usize = 128;

pub const SYMBOL_LIMIT: usize = 16;

// The places of the square: `square_size` in square/specs/Square.antt.
pub const SQUARE_SIZE: usize = STATE_LIMIT * STATE_LIMIT;
