// Why a text is refused.
ghost use Rattle.reader.specs.Examining.{fault};
ghost use Rattle.reader.specs.Faults.{number_of, place_of};
ghost use Rattle.rings.specs.Faults.{fault_text};
ghost use Rattle.std.specs.Prelude.{◌≡◌, Some};

use rings::write_fault;
use std::error::Error;
use std::fmt;

// The rules of texts, each with the number of its refusal.
#[derive(Clone, Copy, PartialEq, Eq, Debug)]
pub enum Rule {
    // more than 4,096 bytes
    TooLong = 10,
    // a byte that begins no token
    NoToken = 11,
    // a number of more than 9 digits
    LongNumber = 12,
    // a token that the grammar does not allow there, or the end of the text
    NotAllowed = 13,
    // an opening sign that already lies in 16 groups
    TooDeep = 14,
    // a left capital that already has an equation
    Repeated = 15,
    // a capital outside all square brackets whose equation does not stand wholly before this one
    TooEarly = 16,
    // a capital without an equation
    NoEquation = 17,
    // the token of the sixty-fifth node
    TooManyNodes = 18,
}

// A rule that a text breaks, and the place: the number of bytes before the token that breaks it.
#[derive(Clone, Copy, PartialEq, Eq, Debug)]
pub struct TextFault {
    pub rule: Rule,
    pub place: usize,
}

impl Rule {
    // The rule is broken at this place.
    pub(super) fn at(self, place: usize) -> TextFault
        ensures { result ≡ fault self place }
    {
        TextFault { rule: self, place }
    }
}

impl TextFault {
    // The number of the refusal.
    pub fn number(&self) -> u8
        ensures { result ≡ number_of self.now }
    {
        self.rule as u8
    }

    // The place of the fault.
    pub fn place(&self) -> usize
        ensures { result ≡ place_of self.now }
    {
        self.place
    }
}

impl fmt::Display for TextFault {
    ghost output = { λ fault. Some (fault_text (number_of fault) (place_of fault)) };

    fn fmt<W: fmt::Write>(&self, f: &mut fmt::Formatter<W>) -> fmt::Result {
        write_fault(f, self.number(), self.place)
    }
}

impl Error for TextFault {}
