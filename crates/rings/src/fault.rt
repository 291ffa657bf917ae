// Why a ring cannot be made, or is not in order.
ghost use Rattle.rings.specs.Faults.{at_depth, fault_text, number_of, place_of, raised};
ghost use Rattle.std.specs.Fmt.{DisplaysOnOk};
ghost use Rattle.std.specs.Prelude.{◌≡◌, Some};

use std::error::Error;
use std::fmt;

// The rules of rings, each with the number of its refusal.
#[derive(Clone, Copy, PartialEq, Eq, Debug)]
pub enum RingRule {
    // the modulus of a residue ring is not from 2 to 2^31
    Modulus = 1,
    // the degree of f is not from 1 to 31
    Polynomial = 2,
    // the ring below a dual ring has more than 2^31 elements
    TooLarge = 3,
}

// A rule that a ring breaks, and the depth: how many rings lie above the one at fault.
#[derive(Clone, Copy, PartialEq, Eq, Debug)]
pub struct RingFault {
    pub rule: RingRule,
    pub depth: u8,
}

impl RingRule {
    // The rule is broken at this depth.
    pub fn at(self, depth: u8) -> RingFault
        ensures { result ≡ at_depth self depth }
    {
        RingFault { rule: self, depth }
    }
}

// (The faults of each layer tell their number and place by bodies and definitions of their own, and print themselves by one line each, through
// `write_fault`: a trait over them would take nothing away.)
impl RingFault {
    // The number of the refusal.
    pub fn number(&self) -> u8
        ensures { result ≡ number_of self.now }
    {
        self.rule as u8
    }

    // The place of the fault, its depth.
    pub fn place(&self) -> usize
        ensures { result ≡ place_of self.now }
    {
        usize::from(self.depth)
    }

    // The same fault, handed up by the ring above.
    pub fn raised(self) -> RingFault
        ensures { result ≡ raised self }
    {
        RingFault {
            depth: self.depth.saturating_add(1),
            ..self
        }
    }
}

// Writes a fault of any layer: its number and its place.
pub fn write_fault<W: fmt::Write>(
    f: &mut fmt::Formatter<W>,
    number: u8,
    place: usize,
) -> fmt::Result
    ensures { DisplaysOnOk W.write_str_gives f.old result (Some (fault_text number place)) f.new }
{
    write!(f, "fault {number} at {place}")
}

impl fmt::Display for RingFault {
    ghost output = { λ fault. Some (fault_text (number_of fault) (place_of fault)) };

    fn fmt<W: fmt::Write>(&self, f: &mut fmt::Formatter<W>) -> fmt::Result {
        write_fault(f, self.number(), self.place())
    }
}

impl Error for RingFault {}
