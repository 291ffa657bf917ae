// Why a table is refused.
ghost use Rattle.rings.specs.Faults.{fault_text};
ghost use Rattle.series.specs.Refusals.{number_of, place_of};
ghost use Rattle.series.specs.declared.fault.TableFault.TheVariants.{Memory, Ring};
ghost use Rattle.std.specs.Prelude.{◌≡◌, Some};

use rings::{RingFault, write_fault};
use std::alloc::AllocError;
use std::error::Error;
use std::fmt;

#[derive(Clone, Copy, PartialEq, Eq, Debug)]
pub enum TableFault {
    // 20: the ring is not in order, for this fault
    Ring(RingFault),
    // 21: q is not below the size of the ring
    Base,
    // 22: the length is not 1 to 64
    Length,
    // no memory was to be had
    Memory,
}

impl TableFault {
    // The number of the refusal; 0 for want of memory. (It is on no list of refusals, so it has no other. Since a case holds the ring's
    // fault, the cases have no numbers in the language.)
    pub fn number(&self) -> u8
        ensures { result ≡ number_of self.now }
    {
        match self {
            TableFault::Ring(_) => 20,
            TableFault::Base => 21,
            TableFault::Length => 22,
            TableFault::Memory => 0,
        }
    }

    // The place of the fault: that of the ring's fault, else 0.
    pub fn place(&self) -> usize
        ensures { result ≡ place_of self.now }
    {
        match self {
            TableFault::Ring(fault) => fault.place(),
            TableFault::Base | TableFault::Length | TableFault::Memory => 0,
        }
    }
}

// A fault of the ring is handed on whole.
impl From<RingFault> for TableFault {
    ghost from_gives = { λ fault given. given ≡ Ring fault };

    fn from(fault: RingFault) -> TableFault {
        Self::Ring(fault)
    }
}

impl From<AllocError> for TableFault {
    ghost from_gives = { λ _ given. given ≡ Memory };

    fn from(_refused: AllocError) -> TableFault {
        Self::Memory
    }
}

impl fmt::Display for TableFault {
    ghost output = { λ fault. Some (fault_text (number_of fault) (place_of fault)) };

    fn fmt<W: fmt::Write>(&self, f: &mut fmt::Formatter<W>) -> fmt::Result {
        write_fault(f, self.number(), self.place())
    }
}

impl Error for TableFault {}
