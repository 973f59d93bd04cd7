// The fault steps of a set, one after the other.
ghost use Rattle.std.specs.Prelude.{◌≡◌, ◌∷◌, ℕ, Some, ◌+◌, ◌≤◌, ◌<◌};
ghost use Rattle.theory.specs.Faults.{kinds, steps};
ghost use Rattle.faults.specs.Steps.{step_for, Ranged};
ghost use Rattle.faults.specs.Rest.{steps_onward, Placed, PlacedNext, step_at, left};

use crate::{Cursor, Fault, FaultSet, Kind};

// The fault steps of a set that are left among so many symbols, in the written order, and where the next of them
// stands.
#[derive(Clone, Copy)]
pub struct Steps {
    set: FaultSet,
    symbols: usize,
    next: Option<Cursor>,
    ghost placed: { PlacedNext symbols next },
}

impl FaultSet {
    ghost use Rattle.faults.specs.Yields.{rest};

    // The fault steps of the set among so many symbols.
    pub fn steps(self, symbols: usize) -> Steps
        ensures all { rest result ≡ steps self.bits symbols }
        ensures among { result.symbols ≡ symbols }
    {
        Steps {
            set: self,
            symbols,
            next: if symbols > 0 {
                self.first_from(0)
            } else {
                None
            },
        }
    }

    // Where the first fault step stands of the kinds of the set from this rank on, if there is a symbol.
    fn first_from(self, rank: usize) -> Option<Cursor>
        requires { rank ≤ kinds }
        ensures rest { (k : ℕ) → 0 < k → left self.bits k result ≡ steps_onward self.bits k rank }
        ensures placed { (k : ℕ) → 0 < k → PlacedNext k result }
    {
        for kind in Kind::ALL {
            if kind.rank() >= rank && self.contains(kind) {
                return Some(Cursor {
                    kind,
                    first: 0,
                    second: 0,
                });
            }
        }
        None
    }
}

impl Cursor {
    // The fault step here.
    fn step(self) -> Fault
        ensures step { step_for result ≡ step_at self }
        ensures ranged { (k : ℕ) → Placed k self → Ranged k result }
    {
        crate::fault_of(self.kind, self.first, self.second)
    }

    // Where the next fault step of the set stands.
    fn next(self, set: FaultSet, symbols: usize) -> Option<Self>
        requires { Placed symbols self }
        ensures rest { left set.bits symbols (Some self) ≡ step_at self ∷ left set.bits symbols result }
        ensures placed { PlacedNext symbols result }
    {
        let second = self.second + 1;
        if second < crate::seconds_of(self.kind, symbols) {
            return Some(Self { second, ..self });
        }
        let (first, second) = (self.first + 1, 0);
        if first < symbols {
            return Some(Self {
                first,
                second,
                ..self
            });
        }
        set.first_from(self.kind.rank() + 1)
    }
}

impl Iterator for Steps {
    ghost use Rattle.std.specs.Iterator.{item_count};
    ghost use Rattle.faults.specs.Yields.{rest, GivesStep};

    type Item = Fault;

    ghost next_gives = { GivesStep };

    ghost remaining = { item_count rest };

    fn next(&mut self) -> Option<Fault> {
        let at = self.next?;
        self.next = at.next(self.set, self.symbols);
        Some(at.step())
    }
}
