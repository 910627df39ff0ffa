// Why a call was refused.
ghost use Rattle.std.specs.Prelude.{◌≡◌, Some};
ghost use Rattle.model.specs.Numbers.{number, refused_text};

use std::fmt;

// Each has the number that it is known by outside, and refusals are ordered by it.
#[derive(Clone, Copy, PartialEq, Eq, PartialOrd, Ord, Debug)]
pub enum Refusal {
    // opening an image
    TooShort = 11,
    BadVersion = 12,
    BadLength = 13,
    BadRecord = 14,
    UnknownKind = 15,
    UnknownScope = 16,
    // the rules of a graph
    NoScope = 21,
    OverLimit = 22,
    BadPasses = 23,
    BadFigure = 24,
    Missing = 25,
    NotForward = 26,
    NegativeWeight = 27,
    CallRing = 28,
    BadFact = 29,
    // a workbook's own
    NotABlock = 30,
    NoFact = 31,
    // the tables of the analysis
    ShortWork = 41,
    ShortTrail = 42,
    // the runs of a graph
    NoRun = 43,
}

impl Refusal {
    // The number that the refusal is known by outside.
    pub fn number(self) -> u8
        ensures { result ≡ number self }
    {
        self as u8
    }
}

impl fmt::Display for Refusal {
    ghost output = { λ r. Some (refused_text r) };

    fn fmt<W: fmt::Write>(&self, f: &mut fmt::Formatter<W>) -> fmt::Result {
        let number = self.number();
        write!(f, "refused {number}")
    }
}
