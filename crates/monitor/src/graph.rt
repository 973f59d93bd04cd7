// The next states of a table.
ghost use Rattle.std.specs.Prelude.{◌≡◌, ◌<◌};
ghost use Rattle.theory.specs.Monitor.{state_limit};
ghost use Rattle.monitor.specs.Format.{Rows};

// The states and symbols of a table, and its next states row by row, symbol 0 first: of every state there is a row, and
// every next state is one of the states.
#[derive(Clone, Copy)]
pub struct Graph<'a> {
    pub states: usize,
    pub symbols: usize,
    pub nexts: &'a [u8],
    pub ghost rows: { Rows state_limit states symbols nexts.now },
}

impl Graph<'_> {
    ghost use Rattle.monitor.specs.Graph.{automaton};

    // The successor of state q under symbol a.
    pub fn successor(&self, q: usize, a: usize) -> usize
        requires { (q < self.now.states)
            × (a < self.now.symbols) }
        ensures next { result ≡ (automaton self.now).next q a }
        ensures inside { result < self.now.states }
    {
        self.nexts[q * self.symbols + a] as usize
    }
}
