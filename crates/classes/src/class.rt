// The six classes of states, and what can be monitored.
ghost use Rattle.std.specs.Prelude.{◌≡◌};
ghost use Rattle.theory.specs.Monitor.{class_from, weak};
ghost use Rattle.classes.specs.Numbers.{class_number, monitorability_number};

use std::fmt;

// The class of a state: what can still be found from it. Its number is the specification's.
#[derive(Clone, Copy, Debug, PartialEq, Eq)]
pub enum Class {
    Good = 0,
    Bad = 1,
    Positive = 2,
    Negative = 3,
    Neutral = 4,
    Ugly = 5,
}

// What can be monitored: true, false, both or neither.
#[derive(Clone, Copy, Debug, PartialEq, Eq)]
pub enum Monitorability {
    Positive,
    Negative,
    Both,
    Neither,
}

impl Class {
    // The class of a state with this mark, by whether true and false can be reached.
    pub(crate) fn from_mark(mark: u8, truth: bool, falsity: bool) -> Self
        ensures { class_number result ≡ class_from mark truth falsity }
    {
        match (mark, truth, falsity) {
            (0, true, true) => Class::Neutral,
            (0, true, false) => Class::Positive,
            (0, false, true) => Class::Negative,
            (0, false, false) => Class::Ugly,
            (1, _, _) => Class::Good,
            _ => Class::Bad,
        }
    }

    // Its number, as a byte.
    pub fn number(self) -> u8
        ensures { result ≡ class_number self }
    {
        self as u8
    }

    // What can be monitored from a state of this class, as far as its class alone says.
    pub(crate) fn weak(self) -> Monitorability
        ensures { monitorability_number result ≡ weak (class_number self) }
    {
        match self {
            Class::Good | Class::Positive => Monitorability::Positive,
            Class::Bad | Class::Negative => Monitorability::Negative,
            Class::Neutral => Monitorability::Both,
            Class::Ugly => Monitorability::Neither,
        }
    }
}

impl fmt::Display for Class {
    fn fmt<W: fmt::Write>(&self, f: &mut fmt::Formatter<W>) -> fmt::Result {
        f.pad(match self {
            Class::Good => "good",
            Class::Bad => "bad",
            Class::Positive => "positive",
            Class::Negative => "negative",
            Class::Neutral => "neutral",
            Class::Ugly => "ugly",
        })
    }
}

impl fmt::Display for Monitorability {
    fn fmt<W: fmt::Write>(&self, f: &mut fmt::Formatter<W>) -> fmt::Result {
        f.pad(match self {
            Monitorability::Positive => "pos",
            Monitorability::Negative => "neg",
            Monitorability::Both => "both",
            Monitorability::Neither => "none",
        })
    }
}
