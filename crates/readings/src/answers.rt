// What a step and a trace answer.

// Where a step leads, and what is read there.
#[derive(Clone, Copy, Debug, PartialEq, Eq)]
pub struct Step {
    pub state: usize,
    pub reading: usize,
}

// What is read after a trace, and after how many symbols its verdict fell, if it did.
#[derive(Clone, Copy, Debug, PartialEq, Eq)]
pub struct Traced {
    pub reading: usize,
    pub count: Option<usize>,
}

// Where a trace was left: the state, and how many symbols were read.
#[derive(Clone, Copy, Debug, PartialEq, Eq)]
pub struct Progress {
    pub state: usize,
    pub read: usize,
}
