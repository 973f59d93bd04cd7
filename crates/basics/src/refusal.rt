// Refusals: why a call refuses, and where.
ghost use Rattle.std.specs.Prelude.{◌≡◌};
ghost use Rattle.basics.specs.Reasons.{number_of, Decodes};

use std::error::Error;
use std::fmt;

// The question that was answered no, by what it found. Its number is the specification's.
#[derive(Clone, Copy, Debug, PartialEq, Eq)]
pub enum Reason {
    BodyTooShort = 1,
    StateCount = 2,
    SymbolCount = 3,
    BodyLength = 4,
    Start = 5,
    Mark = 6,
    NextState = 7,
    VerdictGivenUp = 8,
    FaultSet = 9,
    Reading = 10,
    State = 11,
    Symbol = 12,
    Room = 13,
    BlockCount = 14,
    BlockNumber = 15,
    BlockReadings = 16,
    BlockSteps = 17,
    BlockFaults = 18,
    Verdict = 19,
    FileTooShort = 20,
    RuleCount = 21,
    EntriesMissing = 22,
    RuleOrder = 23,
    BodyPlace = 24,
    FileEnd = 25,
    InputTooLong = 26,
    LengthCount = 27,
    LengthSum = 28,
}

// A number that no reason has.
#[derive(Clone, Copy, Debug, PartialEq, Eq)]
pub struct NoReason(pub usize);

impl Reason {
    // Its number.
    pub fn number(self) -> usize
        ensures { result ≡ number_of self }
    {
        self as usize
    }

    // The refusal for this reason at a place.
    pub fn at(self, place: usize) -> Refusal
        ensures { result ≡ record { reason = self; place = place } }
    {
        Refusal {
            reason: self,
            place,
        }
    }
}

impl TryFrom<usize> for Reason {
    type Error = NoReason;

    ghost try_from_gives = { Decodes };

    fn try_from(number: usize) -> Result<Self, NoReason> {
        match number {
            1 => Ok(Reason::BodyTooShort),
            2 => Ok(Reason::StateCount),
            3 => Ok(Reason::SymbolCount),
            4 => Ok(Reason::BodyLength),
            5 => Ok(Reason::Start),
            6 => Ok(Reason::Mark),
            7 => Ok(Reason::NextState),
            8 => Ok(Reason::VerdictGivenUp),
            9 => Ok(Reason::FaultSet),
            10 => Ok(Reason::Reading),
            11 => Ok(Reason::State),
            12 => Ok(Reason::Symbol),
            13 => Ok(Reason::Room),
            14 => Ok(Reason::BlockCount),
            15 => Ok(Reason::BlockNumber),
            16 => Ok(Reason::BlockReadings),
            17 => Ok(Reason::BlockSteps),
            18 => Ok(Reason::BlockFaults),
            19 => Ok(Reason::Verdict),
            20 => Ok(Reason::FileTooShort),
            21 => Ok(Reason::RuleCount),
            22 => Ok(Reason::EntriesMissing),
            23 => Ok(Reason::RuleOrder),
            24 => Ok(Reason::BodyPlace),
            25 => Ok(Reason::FileEnd),
            26 => Ok(Reason::InputTooLong),
            27 => Ok(Reason::LengthCount),
            28 => Ok(Reason::LengthSum),
            _ => Err(NoReason(number)),
        }
    }
}

impl fmt::Display for Reason {
    fn fmt<W: fmt::Write>(&self, f: &mut fmt::Formatter<W>) -> fmt::Result {
        f.write_str(match self {
            Reason::BodyTooShort => "shorter than 3 bytes",
            Reason::StateCount => "the number of states is not from 1 to 128",
            Reason::SymbolCount => "the number of messages is not from 1 to 16",
            Reason::BodyLength => "not as long as its states and messages ask for",
            Reason::Start => "the start is none of the states",
            Reason::Mark => "a mark that is not 0, 1 or 2",
            Reason::NextState => "a next state that is none of the states",
            Reason::VerdictGivenUp => "a state marked true or false steps to one marked otherwise",
            Reason::FaultSet => "the fault set is above 15",
            Reason::Reading => "the reading is neither 3 nor 6",
            Reason::State => "the state asked about is none of the states",
            Reason::Symbol => "a message that is none of the messages",
            Reason::Room => "the answer does not fit the area lent for it",
            Reason::BlockCount => "the proof has not one block for each state",
            Reason::BlockNumber => "a block number not below the number of states",
            Reason::BlockReadings => "two states of a block read differently",
            Reason::BlockSteps => "a message takes two states of a block into different blocks",
            Reason::BlockFaults => "a fault step brings sent and received into different blocks",
            Reason::Verdict => "the verdict is none of the reading's",
            Reason::FileTooShort => "shorter than 2 bytes",
            Reason::RuleCount => "more than 512 rules",
            Reason::EntriesMissing => "not all entries are there",
            Reason::RuleOrder => "a rule number not above the one before",
            Reason::BodyPlace => "a body that does not start right behind what comes before it",
            Reason::FileEnd => "the file does not end with its last body",
            Reason::InputTooLong => "longer than 65,536 bytes",
            Reason::LengthCount => "not as many body lengths as rule numbers",
            Reason::LengthSum => "the body lengths do not add up to the bodies",
        })
    }
}

// The first question that was answered no, and its place.
#[derive(Clone, Copy, Debug, PartialEq, Eq)]
pub struct Refusal {
    pub reason: Reason,
    pub place: usize,
}

impl fmt::Display for Refusal {
    fn fmt<W: fmt::Write>(&self, f: &mut fmt::Formatter<W>) -> fmt::Result {
        write!(f, "refused {} {}", self.reason.number(), self.place)
    }
}

impl Error for Refusal {}
